//! Laws of files and of the dump that they make.

ghost use Rattle.std.specs.Prelude.{◌≡◌, ℕ, List, IsPermutation};
ghost use Rattle.lsa_instances.specs.Newest.{AreSame};
ghost use Rattle.lsa_instances.specs.declared.keeping.FlushedLsas.{FlushedLsas as Flushed};
ghost use Rattle.network_files.specs.declared.fault.FileFault.{FileFault as AnyFault};
ghost use Rattle.network_files.specs.declared.fault.FileFault.TheVariants as faults;
ghost use Rattle.network_files.specs.declared.parsed_file.ParsedFile.{ParsedFile as AnyFile};
ghost use Rattle.network_files.specs.Dumps.{IsDump};
ghost use Rattle.network_files.specs.ParsedFiles.{IsRefusalOf, IsFileOf, lists_in_file, databases_in};

use capture_files::{one_reading_of_pcap, one_reading_of_pcapng};
use lsdb_merge::joined_in_any_order;
use std::alloc::Allocator;

/// The bytes of a file determine the LSAs, the kinds of areas and the headers that it contains, or
/// that it is refused.
///
/// The function does nothing: its contract is the law.
pub fn one_reading_of_a_file<A: Allocator>()
    ensures same { (bytes : List ℕ) (one two : AnyFile A) → IsFileOf bytes one
        → IsFileOf bytes two → databases_in (lists_in_file one)
        ≡ databases_in (lists_in_file two) }

    // A file that can be read is refused only where memory ran out.
    ensures refused { (bytes : List ℕ) (file : AnyFile A) (fault : AnyFault) → IsFileOf bytes file
        → IsRefusalOf A bytes fault → fault ≡ faults.OutOfMemory }
{
    one_reading_of_pcap();
    one_reading_of_pcapng();
}

/// The dump that files make depends on which files there are. It depends neither on their order,
/// nor on how often each of them is given.
///
/// The function does nothing: its contract is the law.
pub fn files_in_any_order<A: Allocator>()
    ensures order { (flushed : Flushed) (files others : List (AnyFile A)) (one two : List ℕ)
        → IsDump flushed files one → IsDump flushed others two → IsPermutation files others
        → one ≡ two }
    ensures again { (flushed : Flushed) (files others : List (AnyFile A)) (one two : List ℕ)
        → IsDump flushed files one → IsDump flushed others two → AreSame files others → one ≡ two }
{
    joined_in_any_order::<A>();
}
