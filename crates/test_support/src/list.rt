//! Lists of LSAs, one after another, and the dumps of areas with such lists.

ghost use Rattle.std.specs.Prelude.{◌≡◌, is_ok, if◌then◌else◌, IfOk, ◌∷◌, []};
ghost use Rattle.test_support.specs.Lsas.{no_lsas, with_bytes, with_lsa, with_router, with_network, router_body, network_body};
ghost use Rattle.test_support.specs.Dumps.{counted_bytes, dump_of_area, dump_bytes, session_bytes};

use crate::known::MASK_16;
use crate::link::RouterLink;
use crate::lsa::{Header, lsa_bytes};
use std::alloc::{AllocError, Global};
use std::marker::Model;

/// LSAs one after another: those of an area, or those of AS scope.
#[derive(Drop)]
pub struct LsaList {
    alloc: Global,
    bytes: Vec<u8>,
    count: u16,
}

/// Clauses see the bytes, and the number of the LSAs.
impl Model for LsaList {
    ghost use Rattle.test_support.specs.Lsas.{Lsas};

    ghost Value = { Lsas };

    ghost view = { λ list. record { bytes = list.bytes.items; count = list.count } };
}

impl LsaList {
    /// No LSAs.
    pub fn new(alloc: Global) -> LsaList
        ensures { result ≡ no_lsas }
    {
        LsaList {
            alloc,
            bytes: Vec::new(alloc),
            count: 0,
        }
    }

    /// Adds an LSA of these bytes. Here and below, the list is unchanged where memory ran out.
    fn push(&mut self, lsa: &[u8]) -> Result<(), AllocError>
        ensures { self.new ≡ (if is_ok result then with_bytes lsa.now self.old else self.old) }
    {
        self.bytes.extend_from_slice(lsa)?;
        self.count = self.count.wrapping_add(1);
        Ok(())
    }

    /// Adds an LSA with a body of at most 65,515 bytes (RFC 2328, A.4.1).
    ///
    /// # Errors
    ///
    /// Memory ran out.
    pub fn lsa(&mut self, header: Header, body: &[u8]) -> Result<(), AllocError>
        ensures { self.new ≡
            (if is_ok result then with_lsa header body.now self.old else self.old) }
    {
        let bytes = lsa_bytes(self.alloc, header, body)?;
        self.push(&bytes)
    }

    /// Adds a router-LSA with some age and these flags, of at most 5,459 links (RFC 2328, A.4.2).
    ///
    /// # Errors
    ///
    /// Memory ran out.
    pub fn router_of(
        &mut self,
        age: u16,
        router: u32,
        flags: u8,
        links: &[RouterLink],
    ) -> Result<(), AllocError>
        ensures { self.new ≡
            (if is_ok result then with_router age router flags links.now self.old else self.old) }
    {
        let body = router_body(self.alloc, flags, links)?;
        let header = Header {
            age,
            kind: 1,
            id: router,
            router,
        };
        self.lsa(header, &body)
    }

    /// Adds a router-LSA of age 1 without flags.
    ///
    /// # Errors
    ///
    /// Memory ran out.
    pub fn router(&mut self, router: u32, links: &[RouterLink]) -> Result<(), AllocError>
        ensures { self.new ≡
            (if is_ok result then with_router 1 router 0 links.now self.old else self.old) }
    {
        self.router_of(1, router, 0, links)
    }

    /// Adds a network-LSA with some age, of a transit network with the Designated Router's address
    /// and a mask (RFC 2328, A.4.3).
    pub(crate) fn network_of(
        &mut self,
        age: u16,
        network: (u32, u32),
        router: u32,
        attached: &[u32],
    ) -> Result<(), AllocError>
        ensures { self.new ≡ (if is_ok result
            then with_network age network.0 network.1 router attached.now self.old else self.old) }
    {
        let (address, mask) = network;
        let body = network_body(self.alloc, mask, attached)?;
        let header = Header {
            age,
            kind: 2,
            id: address,
            router,
        };
        self.lsa(header, &body)
    }

    /// Adds a network-LSA of age 1, of a transit network with mask 255.255.0.0.
    ///
    /// # Errors
    ///
    /// Memory ran out.
    pub fn network(&mut self, address: u32, router: u32, attached: &[u32]) -> Result<(), AllocError>
        ensures { self.new ≡ (if is_ok result
            then with_network 1 address MASK_16 router attached.now self.old else self.old) }
    {
        self.network_of(1, (address, MASK_16), router, attached)
    }

    /// The number of LSAs, and the LSAs.
    fn counted(&self) -> Result<Vec<u8>, AllocError>
        ensures { IfOk result (λ text. text.items ≡ counted_bytes self.now) }
    {
        let mut text = Vec::new(self.alloc);
        text.extend_from_slice(&self.count.to_be_bytes())?;
        text.extend_from_slice(&self.bytes)?;
        Ok(text)
    }

    /// The dump of area 0.0.0.0 with these LSAs, and without LSAs of AS scope.
    ///
    /// # Errors
    ///
    /// Memory ran out.
    #[tactic(auto, unfolding(crate::specs::Dumps::dump_bytes))]
    pub fn dump(&self) -> Result<Vec<u8>, AllocError>
        ensures { IfOk result (λ dump. dump.items ≡ dump_of_area self.now) }
    {
        let mut dump = Vec::new(self.alloc);
        dump.extend_from_slice(&[0x4f, 0x53, 0x57, 0x50, 1, 1, 0, 0, 0, 0, 0])?;
        dump.extend_from_slice(&self.counted()?)?;
        dump.extend_from_slice(&[0, 0])?;
        Ok(dump)
    }
}

/// The body of a router-LSA: flags, number of links, links.
#[tactic(auto, unfolding(crate::specs::Lsas::router_body))]
fn router_body(alloc: Global, flags: u8, links: &[RouterLink]) -> Result<Vec<u8>, AllocError>
    ensures { IfOk result (λ body. body.items ≡ router_body flags links.now) }
{
    let count = links.len().min(usize::from(u16::MAX)) as u16;
    let mut body = Vec::new(alloc);
    body.extend_from_slice(&[flags, 0])?;
    body.extend_from_slice(&count.to_be_bytes())?;
    for link in links {
        body.extend_from_slice(&link.bytes())?;
    }
    Ok(body)
}

/// The body of a network-LSA: mask, attached routers.
#[tactic(auto, unfolding(crate::specs::Lsas::network_body))]
fn network_body(alloc: Global, mask: u32, attached: &[u32]) -> Result<Vec<u8>, AllocError>
    ensures { IfOk result (λ body. body.items ≡ network_body mask attached.now) }
{
    let mut body = Vec::new(alloc);
    body.extend_from_slice(&mask.to_be_bytes())?;
    for router in attached {
        body.extend_from_slice(&router.to_be_bytes())?;
    }
    Ok(body)
}

/// The dump of areas that are not stub areas, in rising order of their IDs, and of LSAs of AS
/// scope.
///
/// # Errors
///
/// Memory ran out.
#[tactic(auto, unfolding(crate::specs::Dumps::dump_bytes))]
pub fn dump_of(
    alloc: Global,
    areas: &[(u32, LsaList)],
    as_lsas: &LsaList,
) -> Result<Vec<u8>, AllocError>
    ensures { IfOk result (λ dump. dump.items ≡ dump_bytes areas.now as_lsas.now) }
{
    let count = areas.len().min(usize::from(u8::MAX)) as u8;
    let mut dump = Vec::new(alloc);
    dump.extend_from_slice(&[0x4f, 0x53, 0x57, 0x50, 1, count])?;
    for (id, lsas) in areas {
        dump.extend_from_slice(&id.to_be_bytes())?;
        dump.push(0)?;
        dump.extend_from_slice(&lsas.counted()?)?;
    }
    dump.extend_from_slice(&as_lsas.counted()?)?;
    Ok(dump)
}

/// The bytes of a saved session: a dump of version 1, with version 2, and a history after it.
///
/// # Errors
///
/// Memory ran out.
pub fn session_of(alloc: Global, dump: &[u8], history: &[u8]) -> Result<Vec<u8>, AllocError>
    ensures { IfOk result (λ session. session.items ≡ session_bytes dump.now history.now) }
{
    let mut session = Vec::new(alloc);
    session.extend_from_slice(&[0x4f, 0x53, 0x57, 0x50, 2])?;
    session.extend_from_slice(dump.get(5..).unwrap_or(&[]))?;
    session.extend_from_slice(history)?;
    Ok(session)
}
