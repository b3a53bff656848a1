//! Calls that answer something new: each of their growths refused in turn.

use super::nets::{edit_of, nets};
use super::samples::SUMMARY;
use edit_script::{Edit, print};
use lsa_codec::{Addr, Lsa, LsaFault, MakeFault, Prefix, RouterId};
use lsdb::{Database, DumpFault, DumpFaultKind};
use std::alloc::{AllocError, Global};
use std::test::*;
use test_support::{Answer, CallOn, FailingAlloc, FallibleCall, Outcome, first_wrong, outcome_of};

/// What is called.
#[derive(Clone, Copy)]
enum Call {
    Decode,
    CopyLsa,
    WithCost,
    WithoutLink,
    WithoutLinksTo,
    WithoutNetLinks,
    WithStub,
    WithMetric,
    NewSummary,
    NewExternal,
    Load,
    LoadBase,
    Dump,
    DumpBase,
    CopyDatabase,
    Print,
}

const CALLS: &[Call] = &[
    Call::Decode,
    Call::CopyLsa,
    Call::WithCost,
    Call::WithoutLink,
    Call::WithoutLinksTo,
    Call::WithoutNetLinks,
    Call::WithStub,
    Call::WithMetric,
    Call::NewSummary,
    Call::NewExternal,
    Call::Load,
    Call::LoadBase,
    Call::Dump,
    Call::DumpBase,
    Call::CopyDatabase,
    Call::Print,
];

/// A router-LSA of 1.1.1.1 with a link to 2.2.2.2 and one to the network 10.5.0.3.
const ROUTER: &[u8] = &[
    0x00, 0x01, 0x02, 0x01, 0x01, 0x01, 0x01, 0x01, 0x01, 0x01, 0x01, 0x01, 0x80, 0x00, 0x00, 0x01,
    0x36, 0xbe, 0x00, 0x30, 0x00, 0x00, 0x00, 0x02, 0x02, 0x02, 0x02, 0x02, 0x0a, 0x00, 0x00, 0x01,
    0x01, 0x00, 0x00, 0x0a, 0x0a, 0x05, 0x00, 0x03, 0x0a, 0x05, 0x00, 0x01, 0x02, 0x00, 0x00, 0x0a,
];

/// The base of a session: an area without LSAs.
const BASE: &[u8] = b"OSWP\x02\x01\0\0\0\0\0\0\0\0\0";

/// The prefix of new LSAs and links.
fn net() -> Prefix {
    Prefix::masked(Addr(0x0a09_0000), 16)
}

/// What the calls are lent.
#[derive(Drop)]
struct Lent<'a> {
    router: Lsa<&'a FailingAlloc>,
    summary: Lsa<&'a FailingAlloc>,
    database: Database<&'a FailingAlloc>,
    edit: Edit,
}

fn lend(failing: &FailingAlloc) -> Result<Lent<'_>, Fail> {
    Ok(Lent {
        router: Lsa::decode(failing, ROUTER)?.0,
        summary: Lsa::decode(failing, SUMMARY)?.0,
        database: Database::load(failing, nets())?,
        edit: edit_of("add-external 2.2.2.2 10.9.0.0/16 2 20 10.5.0.3 7")?,
    })
}

/// The answer that is bytes.
fn of_bytes(alloc: Global, bytes: &[u8]) -> Result<Answer, Fail> {
    Ok(Some(Vec::from_slice(alloc, bytes)?))
}

/// The LSA that a call makes of a router-LSA.
fn of_router<'a>(
    failing: &'a FailingAlloc,
    lsa: &Lsa<&'a FailingAlloc>,
    call: Call,
) -> Result<Lsa<&'a FailingAlloc>, MakeFault> {
    if lsa.key().kind != 1 {
        return Err(MakeFault::NoLink);
    }
    match call {
        Call::WithCost => lsa.with_cost(failing, 1, 7),
        Call::WithoutLink => lsa.without_link(failing, 2),
        Call::WithoutLinksTo => lsa.without_links_to(failing, RouterId(0x0202_0202)),
        Call::WithoutNetLinks => lsa.without_net_links(failing, Addr(0x0a05_0003)),
        _ => lsa.with_stub(failing, net(), 3),
    }
}

/// The LSA that a call makes of a summary-LSA, or of none.
fn of_summary<'a>(
    failing: &'a FailingAlloc,
    lsa: &Lsa<&'a FailingAlloc>,
    call: Call,
) -> Result<Lsa<&'a FailingAlloc>, MakeFault> {
    if lsa.key().kind != 3 {
        return Err(MakeFault::NoLink);
    }
    let router = RouterId(0x0202_0202);
    match call {
        Call::WithMetric => lsa.with_metric(failing, 20),
        Call::NewSummary => Lsa::new_summary(failing, 2, router, net(), 7),
        _ => Lsa::new_external(failing, router, net(), true, 20, Addr(0), 0),
    }
}

/// The bytes of an LSA that was made.
fn made(alloc: Global, lsa: Result<Lsa<&FailingAlloc>, MakeFault>) -> Result<Answer, Fail> {
    match lsa {
        Ok(lsa) => of_bytes(alloc, lsa.bytes()),
        Err(MakeFault::OutOfMemory) => Ok(None),
        Err(fault) => Err(fault)?,
    }
}

/// The bytes of an LSA that was read or copied.
fn read(alloc: Global, lsa: Result<Lsa<&FailingAlloc>, LsaFault>) -> Result<Answer, Fail> {
    match lsa {
        Ok(lsa) => of_bytes(alloc, lsa.bytes()),
        Err(LsaFault::OutOfMemory) => Ok(None),
        Err(fault) => Err(fault)?,
    }
}

/// The dump of a database that was loaded.
fn loaded(
    alloc: Global,
    failing: &FailingAlloc,
    database: Result<Database<&FailingAlloc>, DumpFault>,
) -> Result<Answer, Fail> {
    failing.set_remaining(u64::MAX);
    match database {
        Ok(database) => of_bytes(alloc, &database.dump()?),
        Err(fault) if fault.kind == DumpFaultKind::OutOfMemory => Ok(None),
        Err(fault) => Err(fault)?,
    }
}

/// The bytes of a text.
fn text(alloc: Global, text: Result<Vec<u8, &FailingAlloc>, AllocError>) -> Result<Answer, Fail> {
    match text {
        Ok(text) => of_bytes(alloc, &text),
        Err(AllocError) => Ok(None),
    }
}

/// The fault of a dump for which there is no memory.
const NO_MEMORY: DumpFault = DumpFault {
    offset: 0,
    kind: DumpFaultKind::OutOfMemory,
};

impl<'a> CallOn<'a, Lent<'a>> for Call {
    fn answer(
        &self,
        alloc: Global,
        failing: &'a FailingAlloc,
        lent: &mut Lent<'a>,
    ) -> Result<Answer, Fail> {
        let database = &lent.database;
        match self {
            Call::Decode => read(alloc, Lsa::decode(failing, SUMMARY).map(|found| found.0)),
            Call::CopyLsa => read(
                alloc,
                lent.router
                    .clone_of(failing)
                    .map_err(|_| LsaFault::OutOfMemory),
            ),
            Call::Load => loaded(alloc, failing, Database::load(failing, nets())),
            Call::LoadBase => loaded(
                alloc,
                failing,
                Database::load_base(failing, BASE).map(|found| found.0),
            ),
            Call::CopyDatabase => loaded(
                alloc,
                failing,
                database.clone_of().map_err(|_| NO_MEMORY),
            ),
            Call::Dump => text(alloc, database.dump()),
            Call::DumpBase => text(alloc, database.dump_base()),
            Call::Print => text(
                alloc,
                print(failing, &lent.edit).map(|line| line.into_bytes()),
            ),
            Call::WithMetric | Call::NewSummary | Call::NewExternal => {
                made(alloc, of_summary(failing, &lent.summary, *self))
            }
            _ => made(alloc, of_router(failing, &lent.router, *self)),
        }
    }
}

impl FallibleCall for Call {
    fn outcome(&self, alloc: Global, failing: &FailingAlloc, left: u64) -> Result<Outcome, Fail> {
        outcome_of(alloc, failing, lend(failing)?, *self, left)
    }
}

#[test]
fn each_growth_of_a_call_refused(rt: HostRuntime) -> Result<(), Fail> {
    assert_eq!(rt; first_wrong(rt.alloc(), CALLS)?, None);
    Ok(())
}
