//! Names, and what they stand for.

ghost use Rattle.std.specs.Prelude.{◌≡◌, ◌++◌, ◌∷◌, [], List, IfOk, OnOk, None, Option, map, option_map};
ghost use Rattle.network_names.specs.Names.{AreNames, Named, address_in, called, name_in, names_of, stands_for};
ghost use Rattle.network_names.specs.Maps.{AreAddresses, AreFirstNames};

use lsa_codec::RouterId;
use std::alloc::{AllocError, Allocator, Global};
use std::collections::BTreeMap;

/// Names of routers and addresses. They borrow the text of the file that they were read from.
#[derive(Drop)]
pub struct Names<'a, A: Allocator = Global> {
    /// The address that each name stands for.
    addresses: BTreeMap<&'a [u8], u32, A>,
    /// The first name for each address.
    first_names: BTreeMap<u32, &'a [u8], A>,
}

impl<'a, A: Allocator + Copy> Names<'a, A> {
    /// No names.
    pub fn new(alloc: A) -> Names<'a, A>
        ensures { AreNames [] result }
    {
        Names {
            addresses: BTreeMap::new(alloc),
            first_names: BTreeMap::new(alloc),
        }
    }

    /// The address that a word stands for, its first byte the highest; `None` where it is no name.
    /// Names are matched byte for byte.
    pub fn address_of(&self, word: &[u8]) -> Option<u32>
        ensures { result ≡ stands_for self.now word.now }
    {
        self.addresses.get(word).copied()
    }

    /// The name of a router: the first name of the first line for its Router ID; `None` where it
    /// has none.
    pub fn name_of(&self, router: RouterId) -> Option<&'a [u8]>
        ensures { option_map (λ name. name.now) result ≡ called self.now router.0 }
    {
        match self.first_names.get(&router.0) {
            Some(name) => Some(*name),
            None => None,
        }
    }

    /// All names, in rising order of their bytes.
    ///
    /// # Errors
    ///
    /// Memory ran out.
    pub fn all(&self, alloc: A) -> Result<Vec<&'a [u8], A>, AllocError>
        ensures { IfOk result (λ all. map (λ name. name.now) all.items ≡ names_of self.now) }
    {
        self.addresses.keys().copied().collect(alloc)
    }

    /// Makes a new name stand for an address.
    pub(crate) fn add(&mut self, name: &'a [u8], address: u32) -> Result<(), AllocError>
        ensures { OnOk result ((all : List Named) → AreNames all self.old
            → address_in all name.now ≡ None
            → AreNames (all ++ (name.now, address) ∷ []) self.new) }
    {
        add_address(&mut self.addresses, name, address)?;
        add_first_name(&mut self.first_names, name, address)?;
        Ok(())
    }
}

/// Makes a new name stand for an address.
fn add_address<'a, A: Allocator + Copy>(
    addresses: &mut BTreeMap<&'a [u8], u32, A>,
    name: &'a [u8],
    address: u32,
) -> Result<(), AllocError>
    ensures { OnOk result ((all : List Named) → AreAddresses all addresses.old
        → address_in all name.now ≡ None
        → AreAddresses (all ++ (name.now, address) ∷ []) addresses.new) }
{
    addresses.insert(name, address)?;
    Ok(())
}

/// Makes a name that of an address, unless the address has one.
fn add_first_name<'a, A: Allocator + Copy>(
    first_names: &mut BTreeMap<u32, &'a [u8], A>,
    name: &'a [u8],
    address: u32,
) -> Result<(), AllocError>
    ensures { OnOk result ((all : List Named) → AreFirstNames all first_names.old
        → AreFirstNames (all ++ (name.now, address) ∷ []) first_names.new) }
{
    if first_names.contains_key(&address) {
        return Ok(());
    }
    first_names.insert(address, name)?;
    Ok(())
}
