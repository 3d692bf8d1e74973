// What a search has counted.
ghost use Rattle.std.specs.Prelude.{◌≤◌};

// How many hits were found, how many of them the list holds, and how many distances were measured. A new one is written
// field by field: a struct with facts has no `..` of another.
#[derive(Clone, Copy)]
pub struct Found {
    pub found: usize,
    pub held: usize,
    pub measured: u32,
    ghost shown: { held ≤ found },
    ghost few: { found ≤ measured },
}
