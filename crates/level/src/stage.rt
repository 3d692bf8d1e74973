// Where the reading of a level file stands.
ghost use Rattle.std.specs.Prelude.{◌≡◌};
ghost use Rattle.level.specs.Stages.{walls_next, calls_next};

// Which line is wanted next: the count of a section, or one of the lines that are left of it.
#[derive(Clone, Copy, PartialEq)]
pub(crate) enum Stage {
    WallCount,
    Walls(usize),
    CallCount,
    Calls(usize),
    End,
}

// Two functions, since the sections differ in both stages: one function would have to be given both.
pub(crate) fn walls_to_come(left: usize) -> Stage
    ensures { result ≡ walls_next left }
{
    if left == 0 {
        Stage::CallCount
    } else {
        Stage::Walls(left)
    }
}

pub(crate) fn calls_to_come(left: usize) -> Stage
    ensures { result ≡ calls_next left }
{
    if left == 0 {
        Stage::End
    } else {
        Stage::Calls(left)
    }
}
