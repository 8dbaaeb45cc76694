// Laws of the forms.

ghost use Rattle.object_codec.specs.Rising.{FormsAreOne, FormsRise};

/// A value has one least form, so that the calls leave no choice.
pub fn forms_are_one()
    ensures { FormsAreOne }
{}

/// The least form not below the old one, which a value takes when an element was written, is told by the same calls.
pub fn forms_rise()
    ensures { FormsRise }
{}
