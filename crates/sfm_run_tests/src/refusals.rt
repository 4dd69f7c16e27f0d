// Instances with a fault, each refused for the first.
use crate::cases::{is_met, solve};

const REFUSALS: [(&[u8], &[u8]); 19] = [
    (
        b"sfm 1\nground a b\nweight z:1000000000001\ncut 1 a b\ncut 1 a a\nend\n",
        b"refused 3 number\n",
    ),
    (
        b"sfm 1\nground a b\nweight z:1\ncut 1 a b\ncut 1 a a\nend\n",
        b"refused 3 name\n",
    ),
    (
        b"sfm 1\nground a b\nweight a:1\ncut 1 a b\ncut 1 a a\nend\n",
        b"refused 5 twice\n",
    ),
    (
        b"sfm 1\nground a b\ntable 0 1 1 3 : a b\nend\n",
        b"refused 3 law\n",
    ),
    (
        b"sfm 1\nground a b\nconcave 1 3 : a b\nend\n",
        b"refused 3 law\n",
    ),
    (
        b"sfm 1\nground a b c\nrank 1 laminar : a b c ; 1 a b ; 1 b c\nend\n",
        b"refused 3 law\n",
    ),
    (
        b"sfm 1\nground a b c\nrank 1 laminar : a b ; 1 a c\nend\n",
        b"refused 3 name\n",
    ),
    (
        b"sfm 1\nground a b\nrank 1 graphic : a=u-v-w b=u-v\nend\n",
        b"refused 3 shape\n",
    ),
    (
        b"sfm 1\nground a b\nrank 1 graphic : a=u- b=u-v\nend\n",
        b"refused 3 name\n",
    ),
    (
        b"sfm 1\nground a b\nrank 1 transversal : a=s,t,s b=t\nend\n",
        b"refused 3 twice\n",
    ),
    (
        b"sfm 1\nground a b\ntable 1 1 1 1 : a b\nend\n",
        b"refused 3 law\n",
    ),
    (
        b"sfm 1\nground a b\nweight a:-3 b:2\ncut 4 a b\n",
        b"refused 5 short\n",
    ),
    (b"", b"refused 1 short\n"),
    (
        b"sfm 1\nground a b\nweight a:-3 b:2\ncut 4 a b\nend\nweight a:1\n",
        b"refused 6 word\n",
    ),
    (b"sfm 3\nground a\nend\n", b"refused 1 shape\n"),
    (b"sfm 1\nground a a\nend\n", b"refused 2 twice\n"),
    (
        b"sfm 1\nground a\nweight a:\xff\nend\n",
        b"refused 3 bytes\n",
    ),
    (
        b"sfm 1\nground a b c d e f g h i\ntable 0 : a b c d e f g h i\nend\n",
        b"refused 3 shape\n",
    ),
    (
        b"sfm 1\nground abcdefghijabcdefghijabcdefghijabc\nend\n",
        b"refused 2 name\n",
    ),
];

#[test]
fn names_the_first_fault(rt: HostRuntime) {
    for number in 0..REFUSALS.len() {
        let (text, line) = REFUSALS[number];
        assert!(rt; is_met(rt.alloc(), &solve(text, 2, line)), "row {number}");
    }
}
