// Which entries name a field.
ghost use Rattle.std.specs.Prelude.{◌≡◌};
ghost use Rattle.fields.specs.Fields.{names_field};

use grammar::states::Want;

// Whether an entry behind which so much is wanted names a field.
pub fn names_field(want: Want) -> bool
    ensures { result ≡ names_field want }
{
    match want {
        Want::FirstName => true,
        Want::FieldName => true,
        Want::Start => false,
        Want::Must => false,
        Want::Item => false,
        Want::First => false,
        Want::Named => false,
        Want::Behind => false,
        Want::Field => false,
    }
}
