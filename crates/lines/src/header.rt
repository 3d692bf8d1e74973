// What line 1 says: the kind of element and the settings.
ghost use Rattle.std.specs.Prelude.{◌≤◌};

use gnat::settings::Settings;

#[derive(Clone, Copy, Debug, PartialEq)]
pub enum Kind {
    Arms,
    Cards,
}

// The settings of a tree, none for the scan, and how many of its nearest each new sample tries.
#[derive(Clone, Copy, Debug, PartialEq)]
pub struct Header {
    pub tree: Option<Settings>,
    pub k: u32,
    ghost some: { 1 ≤ k },
    ghost few: { k ≤ 8 },
}
