//! Laws of values.

ghost use Rattle.std.specs.Prelude.{◌≡◌, ◌++◌, List, ℕ, Some, codes, true};
ghost use Rattle.std.specs.List.{list_all};
ghost use Rattle.hex.specs.Hex.{IsBytes};
ghost use Rattle.snmp_walk.specs.Printing.{AreDigitsOf, between_quotes, hex_value};
ghost use Rattle.snmp_walk.specs.Text.{is_blank};
ghost use Rattle.snmp_walk.specs.Values.{bytes_in};

/// Bytes are read from what net-snmp prints of them: in hexadecimal, as a string, and, where there
/// are none at all, as a string without the word `STRING`.
///
/// The function does nothing: its contract is the law.
pub fn printed_bytes_are_read()
    ensures hex { (bytes text : List ℕ) → IsBytes bytes → AreDigitsOf bytes text
        → bytes_in (hex_value text) ≡ Some bytes }
    ensures string { (bytes blanks : List ℕ) → list_all is_blank blanks ≡ true
        → bytes_in (codes "STRING: " ++ between_quotes bytes ++ blanks) ≡ Some bytes }
    ensures alone { (bytes blanks : List ℕ) → list_all is_blank blanks ≡ true
        → bytes_in (between_quotes bytes ++ blanks) ≡ Some bytes }
{}
