//! What holds between the setters and the getters, whatever the settings.

ghost use Rattle.x86_settings.specs.SetterAndGetter.{SetterMakesGetterTrue, SetterChangesItsBit};
ghost use Rattle.x86_settings.specs.SetterAndGetter.{SetterChangesCompositesOverIt, CompositeSetterMakesGetterTrue};
ghost use Rattle.x86_settings.specs.SetterAndGetter.{CompositeSetterChangesItsMembers};
ghost use Rattle.x86_settings.specs.SetterAndGetter.{CompositeSetterChangesCompositesOverIt};

/// After a setter the getter of the same name is true. Another getter changes only where it shares
/// the bit or is a composite over it.
pub fn setter_and_getter()
    ensures own { SetterMakesGetterTrue }
    ensures other { SetterChangesItsBit }
    ensures composite { SetterChangesCompositesOverIt }
    ensures own_composite { CompositeSetterMakesGetterTrue }
    ensures member { CompositeSetterChangesItsMembers }
    ensures other_composite { CompositeSetterChangesCompositesOverIt }
{}
