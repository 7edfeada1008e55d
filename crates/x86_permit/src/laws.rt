//! What holds of permission and of least settings, whatever the settings.

ghost use Rattle.x86_permit.specs.Laws.{AllSettingsPermitAll, LeastSettingsPermit, MoreSettingsPermitMore};
ghost use Rattle.x86_permit.specs.Laws.{OtherBitsChangeNothing, VexOpcodesStay};

/// The law on least settings: an instruction with a VEX opcode is permitted exactly where all bits of
/// its least settings are set.
pub fn least_settings_permit()
    ensures { LeastSettingsPermit }
{}

/// The law on further settings: a bit more never makes an instruction with a VEX opcode refused.
pub fn more_settings_permit_more()
    ensures { MoreSettingsPermitMore }
{}

/// The law on revision: an instruction with a VEX opcode keeps it under all settings.
pub fn vex_opcodes_stay()
    ensures { VexOpcodesStay }
{}

/// The law on all settings: where all 128 bits are set, each instruction is permitted.
pub fn all_settings_permit_all()
    ensures { AllSettingsPermitAll }
{}

/// The law on other settings: the bits that no condition reads change neither what is permitted nor
/// what a permitted instruction becomes.
pub fn other_bits_change_nothing()
    ensures { OtherBitsChangeNothing }
{}
