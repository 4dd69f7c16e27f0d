// Names and terms that are put into an instance where it takes them.
use sfm_kind::{Instance, Kind, is_name};

/// Adds an element with a new name, if it can be.
fn add_name(instance: &mut Instance, name: &[u8]) -> bool {
    if !is_name(name) || instance.place_of(name).is_some() || instance.names_len() >= 256 {
        return false;
    }
    instance.add_name(name).is_ok()
}

/// Adds elements with these names, if they can be.
pub fn add_names(instance: &mut Instance, names: &[&str]) -> bool {
    for name in names {
        if !add_name(instance, name.as_bytes()) {
            return false;
        }
    }
    true
}

/// Adds a term, if the bounds take it.
pub fn add(instance: &mut Instance, term: Kind) -> bool {
    instance.takes(&term) && instance.add_term(term).is_ok()
}
