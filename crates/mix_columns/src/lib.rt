// mix_columns.rs of the Rust: MixColumns in the fixsliced representation (https://eprint.iacr.org/2020/1123.pdf), and its inverse, over any
// word, based on Käsper and Schwabe, similar to https://github.com/Ko-/aes-armcortexm. The Rust has a function for each number of rounds
// modulo 4, the form, by a macro over two rotations; here the form is a parameter of one function.
#![tactic(auto)]

ghost use Rattle.std.specs.Prelude.{◌≡◌, ◌<◌, ◌*◌, ◌%◌, map, get_or};
ghost use Rattle.lanes.specs.Leaves.{Does, all, mix_form, inv_mix_form};
ghost use Rattle.lanes.specs.Programs.{words, rotate, first_rotates, second_rotates, sums8, mix_outer, inv_mix_d, inv_mix_e, sums83};

use utils::word::Word;
use utils::{ror, ror_distance};

// Every byte goes one row up and `form` columns to the left. The columns that pass the end of their row come round in it: a rotation by one
// row less has them in their places, and the masks put the two together. (The form is a parameter of the helpers and not of
// their types: each of sixteen calls would read `first_rotate::<W, FORM>(a[0])`. Each arm is a function of the Rust's, and a constant chooses it.)
fn first_rotate<W: Word>(x: W, form: u32) -> W
    requires { form < 4 }
    ensures { W.value result ≡ rotate (words W.width) W.width 1 form (W.value x) }
{
    match form {
        // rotate_rows_1
        0 => ror(x, ror_distance::<W>(1, 0)),
        // rotate_rows_and_columns_1_1
        1 => ror(x, ror_distance::<W>(1, 1))
            .and(W::uniform_row(0x3f))
            .or(ror(x, ror_distance::<W>(0, 1)).and(W::uniform_row(0xc0))),
        // rotate_rows_and_columns_1_2
        2 => ror(x, ror_distance::<W>(1, 2))
            .and(W::uniform_row(0x0f))
            .or(ror(x, ror_distance::<W>(0, 2)).and(W::uniform_row(0xf0))),
        // rotate_rows_and_columns_1_3
        _ => ror(x, ror_distance::<W>(1, 3))
            .and(W::uniform_row(0x03))
            .or(ror(x, ror_distance::<W>(0, 3)).and(W::uniform_row(0xfc))),
    }
}

// Two rows up and twice `form` columns to the left, modulo four: none or two. (Arms as above.)
fn second_rotate<W: Word>(x: W, form: u32) -> W
    requires { form < 4 }
    ensures { W.value result ≡ rotate (words W.width) W.width 2 (2 * form % 4) (W.value x) }
{
    match form {
        // rotate_rows_2
        0 | 2 => ror(x, ror_distance::<W>(2, 0)),
        // rotate_rows_and_columns_2_2
        _ => ror(x, ror_distance::<W>(2, 2))
            .and(W::uniform_row(0x0f))
            .or(ror(x, ror_distance::<W>(1, 2)).and(W::uniform_row(0xf0))),
    }
}

// b: the state turned once.
fn first_rotates<W: Word>(a: [W; 8], form: u32) -> [W; 8]
    requires { form < 4 }
    ensures { map W.value result ≡ first_rotates (words W.width) W.width form (λ p. get_or (map W.value a) p 0) }
{
    [
        first_rotate(a[0], form),
        first_rotate(a[1], form),
        first_rotate(a[2], form),
        first_rotate(a[3], form),
        first_rotate(a[4], form),
        first_rotate(a[5], form),
        first_rotate(a[6], form),
        first_rotate(a[7], form),
    ]
}

// What is added last: c, and in the inverse e, turned twice.
fn second_rotates<W: Word>(c: [W; 8], form: u32) -> [W; 8]
    requires { form < 4 }
    ensures { map W.value result ≡ second_rotates (words W.width) W.width form (λ p. get_or (map W.value c) p 0) }
{
    [
        second_rotate(c[0], form),
        second_rotate(c[1], form),
        second_rotate(c[2], form),
        second_rotate(c[3], form),
        second_rotate(c[4], form),
        second_rotate(c[5], form),
        second_rotate(c[6], form),
        second_rotate(c[7], form),
    ]
}

// c: the state and b added.
fn sums<W: Word>(a: [W; 8], b: [W; 8]) -> [W; 8]
    ensures { map W.value result ≡ sums8 (words W.width) W.width (λ p. get_or (map W.value a) p 0) (λ p. get_or (map W.value b) p 0) }
{
    [
        a[0].xor(b[0]),
        a[1].xor(b[1]),
        a[2].xor(b[2]),
        a[3].xor(b[3]),
        a[4].xor(b[4]),
        a[5].xor(b[5]),
        a[6].xor(b[6]),
        a[7].xor(b[7]),
    ]
}

// The result: b, twice c (each bit goes up by one, and c[7] reduces), and c turned.
fn mix_outer<W: Word>(b: [W; 8], c: [W; 8], s: [W; 8]) -> [W; 8]
    ensures { map W.value result ≡ mix_outer (words W.width) W.width (λ p. get_or (map W.value b) p 0) (λ p. get_or (map W.value c) p 0)
        (λ p. get_or (map W.value s) p 0) }
{
    [
        b[0].xor(c[7]).xor(s[0]),
        b[1].xor(c[0]).xor(c[7]).xor(s[1]),
        b[2].xor(c[1]).xor(s[2]),
        b[3].xor(c[2]).xor(c[7]).xor(s[3]),
        b[4].xor(c[3]).xor(c[7]).xor(s[4]),
        b[5].xor(c[4]).xor(s[5]),
        b[6].xor(c[5]).xor(s[6]),
        b[7].xor(c[6]).xor(s[7]),
    ]
}

// d: the state and twice c.
fn inv_mix_d<W: Word>(a: [W; 8], c: [W; 8]) -> [W; 8]
    ensures { map W.value result ≡ inv_mix_d (words W.width) W.width (λ p. get_or (map W.value a) p 0) (λ p. get_or (map W.value c) p 0) }
{
    [
        a[0].xor(c[7]),
        a[1].xor(c[0]).xor(c[7]),
        a[2].xor(c[1]),
        a[3].xor(c[2]).xor(c[7]),
        a[4].xor(c[3]).xor(c[7]),
        a[5].xor(c[4]),
        a[6].xor(c[5]),
        a[7].xor(c[6]),
    ]
}

// e: c and four times d.
fn inv_mix_e<W: Word>(c: [W; 8], d: [W; 8]) -> [W; 8]
    ensures { map W.value result ≡ inv_mix_e (words W.width) W.width (λ p. get_or (map W.value c) p 0) (λ p. get_or (map W.value d) p 0) }
{
    [
        c[0].xor(d[6]),
        c[1].xor(d[6]).xor(d[7]),
        c[2].xor(d[0]).xor(d[7]),
        c[3].xor(d[1]).xor(d[6]),
        c[4].xor(d[2]).xor(d[6]).xor(d[7]),
        c[5].xor(d[3]).xor(d[7]),
        c[6].xor(d[4]),
        c[7].xor(d[5]),
    ]
}

// The inverse's result: d, e, and e turned.
fn inv_mix_outer<W: Word>(d: [W; 8], e: [W; 8], s: [W; 8]) -> [W; 8]
    ensures { map W.value result ≡ sums83 (words W.width) W.width (λ p. get_or (map W.value d) p 0) (λ p. get_or (map W.value e) p 0)
        (λ p. get_or (map W.value s) p 0) }
{
    [
        d[0].xor(e[0]).xor(s[0]),
        d[1].xor(e[1]).xor(s[1]),
        d[2].xor(e[2]).xor(s[2]),
        d[3].xor(e[3]).xor(s[3]),
        d[4].xor(e[4]).xor(s[4]),
        d[5].xor(e[5]).xor(s[5]),
        d[6].xor(e[6]).xor(s[6]),
        d[7].xor(e[7]).xor(s[7]),
    ]
}

// MixColumns on a state that lacks FORM row shifts.
pub fn mix_columns<W: Word, const FORM: u32>(state: [W; 8]) -> [W; 8]
    requires { FORM < 4 }
    ensures { Does W.width (all (mix_form FORM)) (map W.value state) (map W.value result) }
{
    let b = first_rotates(state, FORM); // the macro's $first_rotate
    let c = sums(state, b);
    let s = second_rotates(c, FORM); // and $second_rotate
    mix_outer(b, c, s)
}

// InvMixColumns on a state that lacks FORM row shifts.
pub fn inv_mix_columns<W: Word, const FORM: u32>(state: [W; 8]) -> [W; 8]
    requires { FORM < 4 }
    ensures { Does W.width (all (inv_mix_form FORM)) (map W.value state) (map W.value result) }
{
    let b = first_rotates(state, FORM);
    let c = sums(state, b);
    let d = inv_mix_d(state, c);
    let e = inv_mix_e(c, d);
    let s = second_rotates(e, FORM);
    inv_mix_outer(d, e, s)
}
