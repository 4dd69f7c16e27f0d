// The texts of three seeds against those that another generator makes of them: their lengths and checksums, and of the
// seed 0 how the text begins and the first line of each kind.
use sfm_demo::demo_text;
use std::alloc::Global;

/// The checksum FNV-1a of 64 bits.
fn checksum(text: &[u8]) -> u64 {
    let mut sum: u64 = 0xcbf2_9ce4_8422_2325;
    for byte in text {
        sum = (sum ^ u64::from(*byte)).wrapping_mul(0x100_0000_01b3);
    }
    sum
}

/// Seeds, and the length and the checksum of the text of each.
const TEXTS: [(u64, usize, u64); 3] = [
    (0, 8425, 0x7a9e_b249_1133_9767),
    (1, 8411, 0x4c21_5025_cb61_6501),
    (999_999_999, 8486, 0x6dbe_5b38_6c05_f7d5),
];

/// Whether the text of a seed has that length and that checksum.
fn has_text(alloc: Global, seed: u64, length: usize, sum: u64) -> bool {
    if seed > 999_999_999 {
        return false;
    }
    match demo_text(alloc, seed) {
        Ok(text) => text.len() == length && checksum(&text) == sum,
        Err(_) => false,
    }
}

#[test]
fn texts_are_those_of_another_generator(rt: HostRuntime) {
    for (seed, length, sum) in &TEXTS {
        assert!(rt; has_text(rt.alloc(), *seed, *length, *sum), "at {seed}");
    }
}

/// How the text of the seed 0 begins, and the first line of each kind.
const LINES: [&[u8]; 12] = [
    b"sfm 1\nground e0 e1 e2 e3 e4 e5 e6 e7 e8 e9 e10 e11 ",
    b" e197 e198 e199\nweight e0:747 e1:-438 e2:-398 e3:299 ",
    b"\ncut 149 e114 e117\n",
    b"\nneed e64 e2\n",
    b"\ncover 1373 e85 e92 e99 e106 e113 e120\n",
    b"\nconcave 376 676 965 1213 1389 1527 1652 1724 : e188 e199 e10 e21 e32 e43 e54 e65\n",
    b"\nrank 397 uniform 4 : e193 e196 e199 e2 e5 e8 e11 e14 e17 e20\n",
    b"\nrank 215 laminar : e68 e69 e70 e71 e72 e73 e74 e75 e76 e77 ; 4 e68 e69 e70 e71 e72 e73 ; 1 e68 e69 e70\n",
    b"\nrank 329 graphic : e142=v5-v5 e155=v5-v1 e168=v3-v1 e181=v2-v5 e194=v4-v1 e7=v2-v0 e20=v4-v1 e33=v2-v5 e46=v4-v2 e59=v0-v3\n",
    b"\nrank 282 transversal : e109=s2,s3 e118=s4,s0 e127=s3,s1 e136=s3,s1 e145=s1,s2 e154=s0,s3 e163=s3,s2 e172=s1,s2\n",
    b"\ntable 0 215 72 106 156 190 47 81 : e59 e76 e93\n",
    b"\ntable 0 393 388 500 299 411 406 518 : e175 e192 e9\nend\n",
];

/// Whether a part stands in a text.
fn stands_in(part: &[u8], text: &[u8]) -> bool {
    for start in 0..text.len() {
        if text[start..].starts_with(part) {
            return true;
        }
    }
    false
}

/// Whether all those lines stand in a text.
fn has_lines(text: &[u8]) -> bool {
    for line in &LINES {
        if !stands_in(line, text) {
            return false;
        }
    }
    true
}

/// Whether they stand in the text of the seed 0.
fn has_kinds(alloc: Global) -> bool {
    match demo_text(alloc, 0) {
        Ok(text) => has_lines(&text),
        Err(_) => false,
    }
}

#[test]
fn lines_of_the_seed_0(rt: HostRuntime) {
    assert!(rt; has_kinds(rt.alloc()));
}
