//! Settings as two words.

ghost use Rattle.std.specs.Prelude.{◌≡◌};
ghost use Rattle.vex_calls.specs.Settings.{settings_of};

use x86_settings::InstDecoder;

/// Settings: bits 0 to 63 in the low word, and bits 64 to 127 in the high one, the lowest first. All values are
/// settings.
#[repr(C)]
#[derive(Clone, Copy, PartialEq, Eq, Debug, Default)]
pub struct FlatSettings {
    /// Bits 0 to 63.
    pub low: u64,
    /// Bits 64 to 127.
    pub high: u64,
}

impl FlatSettings {
    /// Those settings.
    #[tactic(auto, unfolding(crate::specs::Settings::settings_of))]
    pub fn of(settings: &InstDecoder) -> FlatSettings
        ensures { settings_of result ≡ settings.now }
    {
        let (low, high) = settings.words();
        FlatSettings { low, high }
    }

    /// The settings that they are.
    #[tactic(auto, unfolding(crate::specs::Settings::settings_of))]
    pub fn settings(&self) -> InstDecoder
        ensures { result ≡ settings_of self.now }
    {
        InstDecoder::from_words(self.low, self.high)
    }
}
