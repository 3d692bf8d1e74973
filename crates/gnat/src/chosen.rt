// Settings as they are asked for.
ghost use Rattle.std.specs.Prelude.{◌≡◌};
ghost use Rattle.gnat.specs.Chosen.{told_settings, settings_outcome};

use gnat_filing::settings::Settings;
use index::refusal::Refusal;

// A degree of 2 to 8 and a bucket from the degree to 32; else the first value that is outside its
// range is refused, the degree before the bucket.
pub fn choose(degree: u32, bucket: u32) -> Result<Settings, Refusal>
    ensures { told_settings result ≡ settings_outcome degree bucket }
{
    if !(2..=8).contains(&degree) {
        return Err(Refusal::Setting(degree));
    }
    if !(degree..=32).contains(&bucket) {
        return Err(Refusal::Setting(bucket));
    }
    Ok(Settings {
        degree: degree as u8,
        bucket: bucket as u8,
    })
}
