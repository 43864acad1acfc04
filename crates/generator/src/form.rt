//! What a function of the program does.

ghost use Rattle.std.specs.Prelude.{◌≡◌};
ghost use Rattle.generator.specs.Text.{form_of};

/// What a function of the program does.
#[derive(Clone, Copy, PartialEq, Eq, Debug)]
pub enum Form {
    /// It adds to its argument.
    Adds,
    /// It calls the function before it.
    Calls,
    /// It folds a list with the function before it.
    Folds,
    /// It handles an exception.
    Handles,
}

/// The form of the function of this number, where so much is drawn. The first has none before it.
pub(crate) fn form_of(number: u64, drawn: u64) -> Form
    ensures { result ≡ form_of number drawn }
{
    if number == 0 {
        return Form::Adds;
    }
    match drawn % 4 {
        0 => Form::Adds,
        1 => Form::Calls,
        2 => Form::Folds,
        _ => Form::Handles,
    }
}
