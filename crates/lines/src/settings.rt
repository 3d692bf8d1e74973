// The settings of a roadmap.
ghost use Rattle.std.specs.Prelude.{◌≡◌, [], ◌∷◌};
ghost use Rattle.level_theory.specs.Levels.{header_outcome};
ghost use Rattle.lines.specs.Settings.{told_tree, tree_outcome, told_header, numbers_if};

use crate::header::Header;
use gnat::chosen::choose;
use gnat::settings::Settings;
use index::refusal::Refusal;

// A level writes a scan as degree 0 with bucket 0, else they are those of a tree.
fn choose_tree(degree: u32, bucket: u32) -> Result<Option<Settings>, Refusal>
    ensures { told_tree result ≡ tree_outcome degree bucket }
{
    if degree == 0 && bucket == 0 {
        return Ok(None);
    }
    let settings = choose(degree, bucket)?;
    Ok(Some(settings))
}

// The header of these settings. The first value outside its range is refused, k last: it is 1 to 8.
pub fn check_settings(degree: u32, bucket: u32, k: u32) -> Result<Header, Refusal>
    ensures { told_header result ≡ numbers_if (header_outcome degree bucket k) (degree ∷ (bucket ∷ (k ∷ []))) }
{
    let tree = choose_tree(degree, bucket)?;
    if !(1..=8).contains(&k) {
        return Err(Refusal::Setting(k));
    }
    Ok(Header { tree, k })
}
