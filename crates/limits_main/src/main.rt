// Calls each public call at both sides of each limit, and prints a line `CALL LENGTHS -> NUMBER kept` for each; `written` where the buffer
// that was lent is not as it was, `spilled` where what lies past it is not. tools/limits_expected.py states the table and made the file stdout.
#![tactic(auto)]

mod call_lines;
mod lengths;

use call_lines::{Call, Key, Lent};
use hex_text::words::HexWord;
use lengths::{DIRECTIONS, INPUTS, KEYS, SCHEDULES};
use std::io;
use word::packed::Packed;

fn expands<W: Packed + HexWord>(rt: &impl Print) -> io::Result<()> {
    for len in KEYS {
        for schedule in SCHEDULES {
            call_lines::expand::<W>(rt, Key { byte: 0x11, len }, schedule)?;
        }
    }
    Ok(())
}

// Keys of zeros, of each length from 0 to 40.
fn zeros_expand<W: Packed + HexWord>(rt: &impl Print) -> io::Result<()> {
    for len in 0..=40 {
        for schedule in SCHEDULES {
            call_lines::expand::<W>(rt, Key { byte: 0, len }, schedule)?;
        }
    }
    Ok(())
}

fn crypts<W: Packed + HexWord>(rt: &impl Print, call: Call) -> io::Result<()> {
    for schedule in SCHEDULES {
        for input in INPUTS {
            // A block less than the input, as many bytes, and a block more.
            for output in [input.saturating_sub(16), input, input + 16] {
                call_lines::crypt::<W>(rt, call, schedule, Lent { input, output })?;
            }
        }
    }
    Ok(())
}

fn check_values<W: Packed + HexWord>(rt: &impl Print) -> io::Result<()> {
    for schedule in SCHEDULES {
        for output in 0..5 {
            call_lines::check_value::<W>(rt, schedule, output)?;
        }
    }
    Ok(())
}

fn doors(rt: &impl Print) -> io::Result<()> {
    for direction in DIRECTIONS {
        for len in KEYS {
            for input in INPUTS {
                for output in [input.saturating_sub(16), input, input + 16] {
                    let key = Key { byte: 0x11, len };
                    call_lines::door(rt, direction, key, Lent { input, output })?;
                }
            }
        }
    }
    Ok(())
}

// Keys of zeros, of each length from 0 to 40, with a right and a wrong direction, input and output.
fn zeros_at_door(rt: &impl Print) -> io::Result<()> {
    for len in 0..=40 {
        for direction in [0, 2] {
            for input in [63, 64] {
                for output in [64, 65] {
                    let key = Key { byte: 0, len };
                    call_lines::door(rt, direction, key, Lent { input, output })?;
                }
            }
        }
    }
    Ok(())
}

fn at_width<W: Packed + HexWord>(rt: &impl Print) -> io::Result<()> {
    expands::<W>(rt)?;
    zeros_expand::<W>(rt)?;
    crypts::<W>(rt, Call::Encrypt)?;
    crypts::<W>(rt, Call::Decrypt)?;
    check_values::<W>(rt)
}

fn main(rt: HostRuntime) -> io::Result<()> {
    at_width::<u32>(&rt)?;
    at_width::<u64>(&rt)?;
    doors(&rt)?;
    zeros_at_door(&rt)
}
