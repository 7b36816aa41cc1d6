// sbox.rs of the Rust: the S-box of Boyar, Peralta and Calik and its inverse, as circuits of XOR and AND, over any word. The S-box is the
// circuit of 113 gates of http://www.cs.yale.edu/homes/peralta/CircuitStuff/SLP_AES_113.txt. The gates stand in the Rust's order, which was
// scheduled for few loads and stores by https://github.com/Ko-/aes-armcortexm/tree/public/scheduler.
#![tactic(auto)]

ghost use Rattle.std.specs.Prelude.{map, ◌≡◌};
ghost use Rattle.lanes.specs.Circuits.{sub_program, inv_sub_program, on_words};
ghost use Rattle.lanes.specs.Schedule.{add63};
ghost use Rattle.lanes.specs.Leaves.{Does, all, bare_sub_bytes, inv_bare_sub_bytes};

use utils::word::Word;

// The circuit of the S-box without its four NOTs. Word p holds bit p of every byte, so a gate on words is the gate on every byte at once.
fn sub_circuit<W: Word>(state: [W; 8]) -> [W; 8]
    ensures { map W.value result ≡ on_words (λ A. sub_program) (map W.value state) }
{
    let u7 = state[0];
    let u6 = state[1];
    let u5 = state[2];
    let u4 = state[3];
    let u3 = state[4];
    let u2 = state[5];
    let u1 = state[6];
    let u0 = state[7];

    let y14 = u3.xor(u5);
    let y13 = u0.xor(u6);
    let y12 = y13.xor(y14);
    let t1 = u4.xor(y12);
    let y15 = t1.xor(u5);
    let t2 = y12.and(y15);
    let y6 = y15.xor(u7);
    let y20 = t1.xor(u1);
    let y9 = u0.xor(u3);
    let y11 = y20.xor(y9);
    let t12 = y9.and(y11);
    let y7 = u7.xor(y11);
    let y8 = u0.xor(u5);
    let t0 = u1.xor(u2);
    let y10 = y15.xor(t0);
    let y17 = y10.xor(y11);
    let t13 = y14.and(y17);
    let t14 = t13.xor(t12);
    let y19 = y10.xor(y8);
    let t15 = y8.and(y10);
    let t16 = t15.xor(t12);
    let y16 = t0.xor(y11);
    let y21 = y13.xor(y16);
    let t7 = y13.and(y16);
    let y18 = u0.xor(y16);
    let y1 = t0.xor(u7);
    let y4 = y1.xor(u3);
    let t5 = y4.and(u7);
    let t6 = t5.xor(t2);
    let t18 = t6.xor(t16);
    let t22 = t18.xor(y19);
    let y2 = y1.xor(u0);
    let t10 = y2.and(y7);
    let t11 = t10.xor(t7);
    let t20 = t11.xor(t16);
    let t24 = t20.xor(y18);
    let y5 = y1.xor(u6);
    let t8 = y5.and(y1);
    let t9 = t8.xor(t7);
    let t19 = t9.xor(t14);
    let t23 = t19.xor(y21);
    let y3 = y5.xor(y8);
    let t3 = y3.and(y6);
    let t4 = t3.xor(t2);
    let t17 = t4.xor(y20);
    let t21 = t17.xor(t14);
    let t26 = t21.and(t23);
    let t27 = t24.xor(t26);
    let t31 = t22.xor(t26);
    let t25 = t21.xor(t22);
    let t28 = t25.and(t27);
    let t29 = t28.xor(t22);
    let z14 = t29.and(y2);
    let z5 = t29.and(y7);
    let t30 = t23.xor(t24);
    let t32 = t31.and(t30);
    let t33 = t32.xor(t24);
    let t35 = t27.xor(t33);
    let t36 = t24.and(t35);
    let t38 = t27.xor(t36);
    let t39 = t29.and(t38);
    let t40 = t25.xor(t39);
    let t43 = t29.xor(t40);
    let z3 = t43.and(y16);
    let tc12 = z3.xor(z5);
    let z12 = t43.and(y13);
    let z13 = t40.and(y5);
    let z4 = t40.and(y1);
    let tc6 = z3.xor(z4);
    let t34 = t23.xor(t33);
    let t37 = t36.xor(t34);
    let t41 = t40.xor(t37);
    let z8 = t41.and(y10);
    let z17 = t41.and(y8);
    let t44 = t33.xor(t37);
    let z0 = t44.and(y15);
    let z9 = t44.and(y12);
    let z10 = t37.and(y3);
    let z1 = t37.and(y6);
    let tc5 = z1.xor(z0);
    let tc11 = tc6.xor(tc5);
    let z11 = t33.and(y4);
    let t42 = t29.xor(t33);
    let t45 = t42.xor(t41);
    let z7 = t45.and(y17);
    let tc8 = z7.xor(tc6);
    let z16 = t45.and(y14);
    let z6 = t42.and(y11);
    let tc16 = z6.xor(tc8);
    let z15 = t42.and(y9);
    let tc20 = z15.xor(tc16);
    let tc1 = z15.xor(z16);
    let tc2 = z10.xor(tc1);
    let tc21 = tc2.xor(z11);
    let tc3 = z9.xor(tc2);
    let s0 = tc3.xor(tc16);
    let s3 = tc3.xor(tc11);
    let s1 = s3.xor(tc16);
    let tc13 = z13.xor(tc1);
    let z2 = t33.and(u7);
    let tc4 = z0.xor(z2);
    let tc7 = z12.xor(tc4);
    let tc9 = z8.xor(tc7);
    let tc10 = tc8.xor(tc9);
    let tc17 = z14.xor(tc10);
    let s5 = tc21.xor(tc17);
    let tc26 = tc17.xor(tc20);
    let s2 = tc26.xor(z17);
    let tc14 = tc4.xor(tc12);
    let tc18 = tc13.xor(tc14);
    let s6 = tc10.xor(tc18);
    let s7 = z12.xor(tc18);
    let s4 = tc14.xor(s3);

    [s7, s6, s5, s4, s3, s2, s1, s0]
}

// The circuit of the inverse, in which the four NOTs are accounted for.
fn inv_sub_circuit<W: Word>(state: [W; 8]) -> [W; 8]
    ensures { map W.value result ≡ on_words (λ A. inv_sub_program) (map W.value state) }
{
    let u7 = state[0];
    let u6 = state[1];
    let u5 = state[2];
    let u4 = state[3];
    let u3 = state[4];
    let u2 = state[5];
    let u1 = state[6];
    let u0 = state[7];

    let t23 = u0.xor(u3);
    let t8 = u1.xor(t23);
    let m2 = t23.and(t8);
    let t4 = u4.xor(t8);
    let t22 = u1.xor(u3);
    let t2 = u0.xor(u1);
    let t1 = u3.xor(u4);
    let t9 = u7.xor(t1);
    let m7 = t22.and(t9);
    let t24 = u4.xor(u7);
    let t10 = t2.xor(t24);
    let m14 = t2.and(t10);
    let r5 = u6.xor(u7);
    let t3 = t1.xor(r5);
    let t13 = t2.xor(r5);
    let t19 = t22.xor(r5);
    let t17 = u2.xor(t19);
    let t25 = u2.xor(t1);
    let r13 = u1.xor(u6);
    let t20 = t24.xor(r13);
    let m9 = t20.and(t17);
    let r17 = u2.xor(u5);
    let t6 = t22.xor(r17);
    let m1 = t13.and(t6);
    let y5 = u0.xor(r17);
    let m4 = t19.and(y5);
    let m5 = m4.xor(m1);
    let m17 = m5.xor(t24);
    let r18 = u5.xor(u6);
    let t27 = t1.xor(r18);
    let t15 = t10.xor(t27);
    let m11 = t1.and(t15);
    let m15 = m14.xor(m11);
    let m21 = m17.xor(m15);
    let m12 = t4.and(t27);
    let m13 = m12.xor(m11);
    let t14 = t10.xor(r18);
    let m3 = t14.xor(m1);
    let m16 = m3.xor(m2);
    let m20 = m16.xor(m13);
    let r19 = u2.xor(u4);
    let t16 = r13.xor(r19);
    let t26 = t3.xor(t16);
    let m6 = t3.and(t16);
    let m8 = t26.xor(m6);
    let m18 = m8.xor(m7);
    let m22 = m18.xor(m13);
    let m25 = m22.and(m20);
    let m26 = m21.xor(m25);
    let m10 = m9.xor(m6);
    let m19 = m10.xor(m15);
    let m23 = m19.xor(t25);
    let m28 = m23.xor(m25);
    let m24 = m22.xor(m23);
    let m30 = m26.and(m24);
    let m39 = m23.xor(m30);
    let m48 = m39.and(y5);
    let m57 = m39.and(t19);
    let m36 = m24.xor(m25);
    let m31 = m20.and(m23);
    let m27 = m20.xor(m21);
    let m32 = m27.and(m31);
    let m29 = m28.and(m27);
    let m37 = m21.xor(m29);
    let m42 = m37.xor(m39);
    let m52 = m42.and(t15);
    let m61 = m42.and(t1);
    let p0 = m52.xor(m61);
    let p16 = m57.xor(m61);
    let m60 = m37.and(t20);
    let m51 = m37.and(t17);
    let m33 = m27.xor(m25);
    let m38 = m32.xor(m33);
    let m43 = m37.xor(m38);
    let m49 = m43.and(t16);
    let p6 = m49.xor(m60);
    let p13 = m49.xor(m51);
    let m58 = m43.and(t3);
    let m50 = m38.and(t9);
    let m59 = m38.and(t22);
    let p1 = m58.xor(m59);
    let p7 = p0.xor(p1);
    let m34 = m21.and(m22);
    let m35 = m24.and(m34);
    let m40 = m35.xor(m36);
    let m41 = m38.xor(m40);
    let m45 = m42.xor(m41);
    let m53 = m45.and(t27);
    let p8 = m50.xor(m53);
    let p23 = p7.xor(p8);
    let m62 = m45.and(t4);
    let p14 = m49.xor(m62);
    let s6 = p14.xor(p23);
    let m54 = m41.and(t10);
    let p2 = m54.xor(m62);
    let p22 = p2.xor(p7);
    let s0 = p13.xor(p22);
    let p17 = m58.xor(p2);
    let p15 = m54.xor(m59);
    let m63 = m41.and(t2);
    let m44 = m39.xor(m40);
    let m46 = m44.and(t6);
    let p5 = m46.xor(m51);
    let p18 = m63.xor(p5);
    let p24 = p5.xor(p7);
    let p12 = m46.xor(m48);
    let s3 = p12.xor(p22);
    let m55 = m44.and(t13);
    let p9 = m55.xor(m63);
    let s7 = p9.xor(p16);
    let m47 = m40.and(t8);
    let p3 = m47.xor(m50);
    let p19 = p2.xor(p3);
    let s5 = p19.xor(p24);
    let p11 = p0.xor(p3);
    let p26 = p9.xor(p11);
    let m56 = m40.and(t23);
    let p4 = m48.xor(m56);
    let p20 = p4.xor(p6);
    let p29 = p15.xor(p20);
    let s1 = p26.xor(p29);
    let p10 = m57.xor(p4);
    let p27 = p10.xor(p18);
    let s4 = p23.xor(p27);
    let p25 = p6.xor(p10);
    let p28 = p11.xor(p25);
    let s2 = p17.xor(p28);

    [s7, s6, s5, s4, s3, s2, s1, s0]
}

// SubBytes without its constant 63: the four NOTs of the circuit, which add 63, are moved to the key schedule (`sub_bytes_nots`).
pub fn sub_bytes<W: Word>(state: [W; 8]) -> [W; 8]
    ensures { Does W.width (all bare_sub_bytes) (map W.value state) (map W.value result) }
{
    sub_circuit(state)
}

// A true inverse of `sub_bytes`.
pub fn inv_sub_bytes<W: Word>(state: [W; 8]) -> [W; 8]
    ensures { Does W.width (all inv_bare_sub_bytes) (map W.value state) (map W.value result) }
{
    inv_sub_circuit(state)
}

// The NOTs that the S-box leaves out: 63 is added to every byte.
pub fn sub_bytes_nots<W: Word>(state: [W; 8]) -> [W; 8]
    ensures { Does W.width (all add63) (map W.value state) (map W.value result) }
{
    [
        state[0].not(),
        state[1].not(),
        state[2],
        state[3],
        state[4],
        state[5].not(),
        state[6].not(),
        state[7],
    ]
}
