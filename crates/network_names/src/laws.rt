//! Laws of names files.

ghost use Rattle.std.specs.Prelude.{◌≡◌, ℕ, List, All, Ok};
ghost use Rattle.network_names.specs.File.{names_in};
ghost use Rattle.network_names.specs.Names.{IsProper, Named};

/// Each name of a file stands for one address, and means nothing else in a line of a study: it is
/// no address, no number, and no word of the language.
///
/// The function does nothing: its contract is the law.
pub fn names_have_one_address()
    ensures { (file : List ℕ) (all : List Named)
        → names_in file ≡ Ok all → All (IsProper all) all }
{}
