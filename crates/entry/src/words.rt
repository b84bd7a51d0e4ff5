//! The words of the command line.
ghost use Rattle.std.specs.Prelude.{◌≡◌, drop};

/// The words behind the program's name, which stands first where there is one.
pub fn behind_name(mut args: Vec<String>) -> Vec<String>
    /// The words are those behind the program's name.
    ensures behind { result.items ≡ drop 1 args.items }
{
    if !args.is_empty() {
        let _name = args.remove(0);
    }
    args
}
