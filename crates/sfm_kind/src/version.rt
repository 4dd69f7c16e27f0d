// The versions of the instance text: in the second one numbers may be larger.

/// Which version of the text an instance stands for.
#[derive(Clone, Copy, Debug, PartialEq, Eq)]
pub enum Version {
    /// `sfm 1`: numbers to 10^12, sizes that add to at most 10^15.
    First,
    /// `sfm 2`: numbers to 10^15, sizes that add to at most 10^18.
    Second,
}
