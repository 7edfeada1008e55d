//! Laws of features and processors, over the definitions alone.

ghost use Rattle.x86_features.specs.Laws.{NamesAreMicroarchitectures, ProcessorsAreInOrder, RulesAreInOrder};
ghost use Rattle.x86_features.specs.Laws.{VexAndMarkedNeedFeatures};

/// Each line of the table of opcodes is that of the opcode which it names.
pub fn rules_are_in_order()
    ensures { RulesAreInOrder }
{}

/// Each line of the table of processors is that of the processor which it names.
pub fn processors_are_in_order()
    ensures { ProcessorsAreInOrder }
{}

/// The names of the processors are those of the microarchitectures that have settings, in the same order.
pub fn names_are_microarchitectures()
    ensures { NamesAreMicroarchitectures }
{}

/// An instruction needs some feature exactly where it has the EVEX mark or a VEX opcode.
pub fn vex_and_marked_need_features()
    ensures { VexAndMarkedNeedFeatures }
{}
