// Texts of sizes.
use crate::rows::{Read, are_rows, instance_of, is_told};
use sfm_base::read_number;
use sfm_kind::Instance;
use sfm_side::read_sizes;
use sfm_text::{TEXT_LIMIT, TextEnd};
use std::alloc::Global;
use std::process::Abort;

/// Whether the sizes are those that are listed, with a space between two.
fn are_listed(sizes: &[i128], list: &str) -> bool {
    let mut at = 0;
    for word in list.split(' ') {
        if at >= sizes.len() || read_number(word.as_bytes()) != Some(sizes[at]) {
            return false;
        }
        at += 1;
    }
    at == sizes.len()
}

const GROUND: &str = "ground a b";

/// Sizes, listed with a space between two.
struct OfSizes;

impl Read for OfSizes {
    type Found = Vec<i128>;

    fn read(alloc: Global, instance: &Instance, text: &[u8]) -> Result<Vec<i128>, TextEnd> {
        read_sizes(alloc, instance, text)
    }

    fn is_listed(sizes: &Vec<i128>, list: &str) -> bool {
        are_listed(sizes, list)
    }
}

/// The frame of the text.
const FRAMES: [&str; 20] = [
    "1 short>",
    "2 short># x",
    "4 short>#|# x| #",
    "1 word>sfm 1",
    "1 word>size 1",
    "1 shape>sizes",
    "1 shape>sizes 2",
    "1 shape>sizes 1 1",
    "2 shape>sizes 1|end x",
    "3 word>sizes 1|end|end",
    "=1 1>sizes 1|end|# x",
    "2 word>sizes 1|x",
    "2 word>sizes 1|sizes 1",
    "2 short>sizes 1",
    "2 short>sizes 1|",
    "3 word>sizes 1|end|size z:0",
    "=1 1>sizes 1|end",
    "=1 3># x|\tsizes  1\t||#|size b:3|end|",
    "4 short>sizes 1|size a:2|size b:3",
    "2 word>sizes 1|cut 1 a b",
];

#[test]
fn a_text_of_sizes_has_its_frame(rt: HostRuntime) {
    assert!(rt; are_rows::<OfSizes>(rt.alloc(), GROUND, &FRAMES));
}

/// The lines of the text.
const LINES: [&str; 31] = [
    "2 shape>sizes 1|size|end",
    "2 shape>sizes 1|size a|end",
    "2 shape>sizes 1|size a:1:2|end",
    "2 shape>sizes 1|size a:1 :|end",
    "2 shape>sizes 1|size :|end",
    "2 number>sizes 1|size a:0|end",
    "2 number>sizes 1|size a:-1|end",
    "2 number>sizes 1|size a:01|end",
    "2 number>sizes 1|size a:+1|end",
    "2 number>sizes 1|size a:|end",
    "2 number>sizes 1|size a:1000001|end",
    "2 number>sizes 1|size a:x|end",
    "2 name>sizes 1|size z:1|end",
    "2 name>sizes 1|size :1|end",
    "2 name>sizes 1|size A-b:1|end",
    "2 number>sizes 1|size z:0|end",
    "2 twice>sizes 1|size a:1 a:1|end",
    "3 twice>sizes 1|size a:1|size b:2 a:1|end",
    "2 name>sizes 1|size a:1 z:1 a:1|end",
    "2 total>sizes 1|size a:1000000|end",
    "2 total>sizes 1|size a:999999 b:2|end",
    "3 total>sizes 1|size a:999999|size b:2|end",
    "=999999 1>sizes 1|size a:999999|end",
    "=999999 1>sizes 1|size a:999999 b:1|end",
    "2 word>sizes 1|weight a:1|end",
    "=1 3>sizes 1|size b:3|end",
    "=5 3>sizes 1|size b:3 a:5|end",
    "=5 3>sizes 1|size b:3|size a:5|end",
    "2 word>sizes 1|Size a:1|end",
    "3 number>sizes 1|size a:1|size a:1 b:0|end",
    "2 shape>sizes 1|size a:0 b|end",
];

#[test]
fn lines_of_sizes_have_their_reasons(rt: HostRuntime) {
    assert!(rt; are_rows::<OfSizes>(rt.alloc(), GROUND, &LINES));
}

/// Whether a text with a byte past `~` is told so, over a ground of a and b.
fn is_byte_told(alloc: Global, text: &[u8], told: &str) -> bool {
    match instance_of(alloc, GROUND) {
        Some(instance) => is_told::<OfSizes>(alloc, &instance, text, told),
        None => false,
    }
}

#[test]
fn a_bad_byte_comes_first(rt: HostRuntime) {
    assert!(rt; is_byte_told(rt.alloc(), b"sizes 1\n# \xff\nend", "=1 1"));
    assert!(rt; is_byte_told(rt.alloc(), b"sizes 1\nsize a:\xff\nend", "2 bytes"));
    assert!(rt; is_byte_told(rt.alloc(), b"sizes 1\nx \xff\nend", "2 bytes"));
    assert!(rt; is_byte_told(rt.alloc(), b"sizes \xff\nend", "1 bytes"));
    assert!(rt; is_byte_told(rt.alloc(), b"sizes 1\nend \xff", "2 bytes"));
    assert!(rt; is_byte_told(rt.alloc(), b"sizes 1\nend\n\x01", "3 bytes"));
    assert!(rt; is_byte_told(rt.alloc(), b"sizes 1\r\nsize b:3\r\nend\r\n", "=1 3"));
}

/// A text that begins with some bytes, and ends with others behind so many of one kind that it has so many in all.
fn filled(alloc: Global, front: &[u8], fill: u8, end: &[u8], len: usize) -> Option<Vec<u8>> {
    let Ok(mut text) = vec![in alloc; fill; len] else {
        return None;
    };
    if len < front.len() + end.len() {
        return None;
    }
    text[..front.len()].copy_from_slice(front);
    text[len - end.len()..].copy_from_slice(end);
    Some(text)
}

/// Whether a filled text of that length is told so.
fn is_filled(alloc: Global, front: &[u8], len: usize, told: &str) -> bool {
    match filled(alloc, front, b'x', b"\nend", len) {
        Some(text) => is_byte_told(alloc, &text, told),
        None => false,
    }
}

#[test]
fn a_text_of_sizes_may_be_long(rt: HostRuntime) {
    assert!(rt; is_filled(rt.alloc(), b"sizes 1\n#", TEXT_LIMIT, "=1 1"));
    assert!(rt; is_filled(rt.alloc(), b"sizes 1\n#", TEXT_LIMIT + 1, "0 long"));
}

/// Whether a line with so many pairs is told so.
fn is_spread(alloc: Global, pairs: usize, told: &str) -> bool {
    let mut text = Vec::new(alloc);
    if text.extend_from_slice(b"sizes 1\nsize").is_err() {
        return false;
    }
    for _ in 0..pairs {
        if text.extend_from_slice(b" a:1").is_err() {
            return false;
        }
    }
    is_byte_told(alloc, &text, told)
}

#[test]
fn a_line_of_sizes_may_be_long(rt: HostRuntime) {
    assert!(rt; is_spread(rt.alloc(), 1, "3 short"));
    assert!(rt; is_spread(rt.alloc(), 200_000, "2 twice"));
}

/// Whether a text without lines gives no sizes over a ground without elements.
fn is_empty_read(alloc: Global) -> bool {
    let Some(instance) = instance_of(alloc, "ground") else {
        return false;
    };
    match read_sizes(alloc, &instance, b"sizes 1\nend") {
        Ok(sizes) => sizes.is_empty(),
        Err(_) => false,
    }
}

#[test]
fn no_elements_have_no_sizes(rt: HostRuntime) {
    assert!(rt; is_empty_read(rt.alloc()));
}
