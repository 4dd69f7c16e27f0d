// The lines of concave functions and of ranks.
use super::told::{Numbers, Told, are_told};
use super::{AMONG, Frame};
use sfm_kind::Kind;
use sfm_law::Term;
use sfm_text::read_instance;
use std::alloc::Global;

const CONCAVE_LINES: &str = "\
0 good:concave 3 3 : a b|concave 3 5 6 : d a b|concave -1 : a
0 good:concave 1000000000000 : a|concave -1000000000000 : a
3 shape:concave
3 shape:concave :
3 shape:concave 1 : a b
3 shape:concave 1 2 : a
3 shape:concave 1 2 a b
3 shape:concave 1 : : a
3 shape:concave 1 ; : a b
3 shape:concave 1 2 : a ;
3 number:concave 1 x : a z
3 number:concave 1000000000001 : a
3 name:concave 1 3 : z a
3 twice:concave 1 3 : a a
3 law:concave 1 3 : a b
3 law:concave 0 1 : a b
3 law:concave 3 5 8 : a b c";

const UNIFORM_LINES: &str = "\
0 good:rank 2 uniform 1 : a b|rank 0 uniform 0 : c
3 shape:rank
3 shape:rank 2
3 shape:rank 2 uniform
3 shape:rank 2 uniform 1
3 shape:rank 2 uniform 1 :
3 shape:rank 2 uniform 1 a b
3 shape:rank 2 uniform : a b
3 shape:rank 2 uniform 1 1 : a b
3 shape:rank : uniform 1 : a b
3 shape:rank 2 uniform 1 : a ; 1 a
3 shape:rank 2 Uniform 1 : a b
3 shape:rank 2 Graphic : a=x-y
3 shape:rank 2 transversals : a=x
3 shape:rank uniform 2 1 : a b
3 number:rank -2 uniform 1 : z b
3 number:rank 2 uniform -1 : a b
3 number:rank 2 uniform 1000000000001 : a b
3 name:rank 2 uniform 1 : a z
3 twice:rank 2 uniform 1 : a b a";

const LAMINAR_LINES: &str = "\
0 good:rank 2 laminar : a b|rank 2 laminar : a ; 0 a
0 good:rank 2 laminar : a b c d ; 3 c a b ; 1 b a ; 1 c ; 2 d
0 good:rank 2 laminar : a b c ; 2 c a ; 1 a c
3 shape:rank 2 laminar
3 shape:rank 2 laminar :
3 shape:rank 2 laminar a b
3 shape:rank 2 laminar 1 : a b
3 shape:rank ; laminar : a b
3 shape:rank 2 laminar : ; 1 a
3 shape:rank 2 laminar : a ;
3 shape:rank 2 laminar : a ; 1
3 shape:rank 2 laminar : a ; ; 1 a
3 shape:rank 2 laminar : a ; 1 a ;
3 shape:rank 2 laminar ; a ; 1 a
3 shape:rank 2 laminar : : a ; 1 a
3 shape:rank 2 laminar : a : ; 1 a
3 shape:rank 2 laminar : a ; : a
3 shape:rank 2 laminar : a ; 1 a : a
3 number:rank x laminar : z ; 1 a
3 number:rank 2 laminar : z ; -1 a
3 number:rank 2 laminar : a b ; 1 a ; b a
3 name:rank 2 laminar : a z ; 1 a
3 name:rank 2 laminar : a a ; 1 b
3 name:rank 2 laminar : a b ; 1 a a ; 1 c
3 name:rank 2 laminar : a b ; 1 a z
3 name:rank 2 laminar : a b ; 1 a-b
3 twice:rank 2 laminar : a b a ; 1 a
3 twice:rank 2 laminar : a b ; 1 b ; 1 a b a
3 twice:rank 2 laminar : a b c ; 1 a b ; 1 b c ; 1 a a
3 law:rank 2 laminar : a b c ; 1 a b ; 1 b c
3 law:rank 2 laminar : a b c d ; 1 d ; 3 a b c ; 1 d c
3 law:rank 2 laminar : a b c ; 9 a b ; 0 b ; 1 c a
3 law:rank 0 laminar : a b c ; 0 c b ; 0 a b";

const GRAPHIC_LINES: &str = "\
0 good:rank 2 graphic : a=u-v b=v-w c=w-u|rank 0 graphic : d=x-x
0 good:rank 2 graphic : a=u-u b=u-v c=v-u d=u-v
0 good:rank 1000000000000 graphic : a=a-b b=1-_
3 shape:rank 2 graphic
3 shape:rank 2 graphic :
3 shape:rank 2 graphic a=u-v
3 shape:rank : graphic : a=u-v
3 shape:rank 2 graphic 1 : a=u-v
3 shape:rank 2 graphic : a
3 shape:rank 2 graphic : a=u
3 shape:rank 2 graphic : a=
3 shape:rank 2 graphic : a-b
3 shape:rank 2 graphic : a=u-v-w
3 shape:rank 2 graphic : a=b=c-d
3 shape:rank 2 graphic : a=u-v b
3 shape:rank 2 graphic : a=u-v ; b=v-w
3 shape:rank 2 graphic : : a=u-v
3 shape:rank 2 graphic : a=u-v :
3 number:rank x graphic : z=u-v
3 number:rank -1 graphic : a=u-v
3 number:rank 1000000000001 graphic : a=u-v
3 name:rank 2 graphic : a-b=u-v
3 name:rank 2 graphic : z=u-v
3 name:rank 2 graphic : =u-v
3 name:rank 2 graphic : a=-v
3 name:rank 2 graphic : a=u-
3 name:rank 2 graphic : a=u.-v
3 name:rank 2 graphic : a=u-v b=u-v,w
3 name:rank 2 graphic : a=u-v a=-v
3 twice:rank 2 graphic : a=u-v a=v-w
3 twice:rank 2 graphic : b=u-v a=v-w b=u-v";

const TRANSVERSAL_LINES: &str = "\
0 good:rank 2 transversal : a=s b=s,t c=t,u|rank 0 transversal : d=x
0 good:rank 2 transversal : a=s b=s c=s d=a,b,c,d
0 good:rank 2 transversal : a=s,t,u,v b=u
3 shape:rank 2 transversal
3 shape:rank 2 transversal :
3 shape:rank 2 transversal a=s
3 shape:rank ; transversal : a=s
3 shape:rank 2 transversal : a
3 shape:rank 2 transversal : a,b
3 shape:rank 2 transversal : a=s=t
3 shape:rank 2 transversal : a=s ; b=t
3 shape:rank 2 transversal : a=s :
3 number:rank x transversal : z=s
3 number:rank 1000000000001 transversal : a=s
3 name:rank 2 transversal : z=s
3 name:rank 2 transversal : =s
3 name:rank 2 transversal : a=
3 name:rank 2 transversal : a=,s
3 name:rank 2 transversal : a=s,
3 name:rank 2 transversal : a=s,,t
3 name:rank 2 transversal : a=s-t
3 name:rank 2 transversal : a=s,s b=t,
3 name:rank 2 transversal : a=s a=t.
3 name:rank 2 transversal : a=s,t,u- b=s
3 twice:rank 2 transversal : a=s,s
3 twice:rank 2 transversal : a=s,t,u,t b=s
3 twice:rank 2 transversal : a=s,t b=t,s,t
3 twice:rank 2 transversal : a=s a=t";

/// Tables of faults, each with the frame of its texts.
pub(super) const FAULTS: [(Frame, &str); 5] = [
    (AMONG, CONCAVE_LINES),
    (AMONG, UNIFORM_LINES),
    (AMONG, LAMINAR_LINES),
    (AMONG, GRAPHIC_LINES),
    (AMONG, TRANSVERSAL_LINES),
];

const LINES_OF_TERMS: &[u8] =
    b"sfm 1\nground a b c d\nconcave 3 5 6 : d a b\nrank 7 uniform 2 : c a\nrank 5 laminar : d b a ; 2 b d ; 1 a\nend\n";

/// Their terms.
const TERMS: [Told; 3] = [
    Told {
        places: &[3, 0, 1],
        numbers: Numbers::Concave(&[3, 5, 6]),
    },
    Told {
        places: &[2, 0],
        numbers: Numbers::Uniform(7, 2),
    },
    Told {
        places: &[3, 1, 0],
        numbers: Numbers::Laminar(5, 2),
    },
];

// The last value, and two and three elements with their worth, which the groups hold all.
const SIZES: [i128; 3] = [6, 14, 15];

const NAMES_OF_LABELS: &[u8] =
    b"sfm 1\nground a b c d\nrank 3 graphic : d=v-u a=u-w b=v-w c=w-w\nrank 4 transversal : b=t,s d=s,t a=t\nend\n";

/// Their terms.
const TERMS_OF_LABELS: [Told; 2] = [
    Told {
        places: &[3, 0, 1, 2],
        numbers: Numbers::Graphic(3, &[(0, 1), (1, 2), (0, 2), (2, 2)]),
    },
    Told {
        places: &[1, 3, 0],
        numbers: Numbers::Transversal(4, 3),
    },
];

// Three edges make a circuit and one is a loop, so two are a greatest forest, and two of the three elements have slots of their own.
const SIZES_OF_LABELS: [i128; 2] = [6, 8];

/// Whether terms have these sizes.
fn are_sized(terms: &[Kind], sizes: &[i128]) -> bool {
    for (term, size) in terms.iter().zip(sizes) {
        if term.size() != *size {
            return false;
        }
    }
    terms.len() == sizes.len()
}

/// Whether a text has these terms, of these sizes.
fn has_terms(alloc: Global, text: &[u8], told: &[Told], sizes: &[i128]) -> bool {
    match read_instance(alloc, text) {
        Ok(instance) => are_told(instance.terms(), told) && are_sized(instance.terms(), sizes),
        Err(_) => false,
    }
}

#[test]
fn the_terms_are_those_of_their_lines(rt: HostRuntime) {
    assert!(rt; has_terms(rt.alloc(), LINES_OF_TERMS, &TERMS, &SIZES));
}

#[test]
fn vertices_and_slots_are_told_by_their_names(rt: HostRuntime) {
    assert!(rt;
        has_terms(
            rt.alloc(),
            NAMES_OF_LABELS,
            &TERMS_OF_LABELS,
            &SIZES_OF_LABELS
        )
    );
}
