//! Databases as text: one area or LSA per line.
//!
//! A line is a word, an ID, perhaps with a prefix length, and values with names. After a colon come
//! the links of a router-LSA or the attached routers of a network-LSA, with commas between them:
//!
//! ```text
//! area 0.0.0.0
//! router 1.1.1.1 flags=3 age=9: point-to-point 2.2.2.2 data=10.0.0.1 cost=9, stub 9.0.0.0/8 cost=5
//! network 10.5.0.3/16 by=3.3.3.3: 1.1.1.1, 3.3.3.3
//! summary 10.20.0.0/16 by=2.2.2.2 cost=20
//! asbr-summary 9.9.9.9 by=2.2.2.2 cost=5
//! ```

use crate::link::RouterLink;
use crate::list::{LsaList, dump_of};
use crate::lsa::Header;
use std::alloc::{AllocError, AllocFailed, Global};

/// Why a text is not a database.
#[derive(Clone, Copy, Debug, PartialEq, Eq)]
pub enum TextFault {
    /// The line with this number, counted from 1, is none of those above.
    Line(usize),
    /// Memory ran out.
    OutOfMemory,
}

impl From<AllocError> for TextFault {
    fn from(_: AllocError) -> TextFault {
        TextFault::OutOfMemory
    }
}

impl<T: Drop> From<AllocFailed<T>> for TextFault {
    fn from(_: AllocFailed<T>) -> TextFault {
        TextFault::OutOfMemory
    }
}

/// What a line contains before its colon, or a link. Missing values have defaults.
#[derive(Clone, Copy)]
struct Item<'a> {
    word: &'a str,
    id: u32,
    mask: u32,
    /// The Advertising Router; of a router-LSA its own ID.
    by: u32,
    age: u16,
    flags: u8,
    /// The Link Data; of a stub link the mask.
    data: u32,
    cost: u32,
}

impl Item<'_> {
    /// Sets the value of this name, unless there is none or it is too large.
    fn set(&mut self, name: &str, value: u32) -> Option<()> {
        match name {
            "by" => self.by = value,
            "age" => self.age = u16::try_from(value).ok()?,
            "flags" => self.flags = u8::try_from(value).ok()?,
            "data" => self.data = value,
            "cost" => self.cost = value,
            _ => return None,
        }
        Some(())
    }
}

/// A number of 32 bits, or four of 8 bits with dots between them.
fn number(text: &str) -> Option<u32> {
    let mut value: u32 = 0;
    for part in text.trim().split('.') {
        value = value << 8 | part.parse::<u32>().ok()?;
    }
    Some(value)
}

/// The ID and the mask of a word such as `10.9.0.0/16`; without a length the mask is 0.
fn id_and_mask(text: &str) -> Option<(u32, u32)> {
    let Some((id, length)) = text.split_once('/') else {
        return Some((number(text)?, 0));
    };
    let host_bits = 32u32.checked_sub(number(length)?)?;
    let mask = u32::MAX.checked_shl(host_bits).unwrap_or(0);
    Some((number(id)?, mask))
}

/// An item: its word, its ID, and its values.
fn read_item(text: &str) -> Option<Item<'_>> {
    let mut words = text.split_whitespace();
    let word = words.next()?;
    let (id, mask) = id_and_mask(words.next()?)?;
    let mut item = Item {
        word,
        id,
        mask,
        by: id,
        age: 1,
        flags: 0,
        data: mask,
        cost: 0,
    };
    for value in words {
        let (name, value) = value.split_once('=')?;
        item.set(name, number(value)?)?;
    }
    Some(item)
}

/// What stands after the colon of a line, with commas between.
trait Part: Copy {
    /// The part that a text is, if it is one.
    fn read(text: &str) -> Option<Self>;
}

/// A link of a router-LSA.
impl Part for RouterLink {
    fn read(text: &str) -> Option<RouterLink> {
        let item = read_item(text)?;
        let kind = match item.word {
            "point-to-point" => 1,
            "transit" => 2,
            "stub" => 3,
            "virtual" => 4,
            _ => return None,
        };
        Some(RouterLink {
            kind,
            id: item.id,
            data: item.data,
            metric: u16::try_from(item.cost).ok()?,
        })
    }
}

/// An attached router of a network-LSA.
impl Part for u32 {
    fn read(text: &str) -> Option<u32> {
        number(text)
    }
}

/// The parts after a colon, or none where there is no colon. `unread` is the fault where one of
/// them cannot be read.
fn parts<T: Part>(
    alloc: Global,
    text: Option<&str>,
    unread: TextFault,
) -> Result<Vec<T>, TextFault> {
    let mut list = Vec::new(alloc);
    if let Some(text) = text {
        for part in text.split(',') {
            list.push(T::read(part).ok_or(unread)?)?;
        }
    }
    Ok(list)
}

/// Adds a summary-LSA of this LS type (RFC 2328, A.4.4).
fn add_summary(lsas: &mut LsaList, kind: u8, item: Item) -> Result<(), TextFault> {
    let header = Header {
        age: item.age,
        kind,
        id: item.id,
        router: item.by,
    };
    let [m0, m1, m2, m3] = item.mask.to_be_bytes();
    let [_, high, middle, low] = item.cost.to_be_bytes();
    Ok(lsas.lsa(header, &[m0, m1, m2, m3, 0, high, middle, low])?)
}

/// Adds the LSA of a line. `unread` is the fault where it cannot be read.
fn add_line(
    alloc: Global,
    lsas: &mut LsaList,
    line: &str,
    unread: TextFault,
) -> Result<(), TextFault> {
    let (head, rest) = match line.split_once(':') {
        Some((head, rest)) => (head, Some(rest)),
        None => (line, None),
    };
    let item = read_item(head).ok_or(unread)?;
    match item.word {
        "router" => {
            let links = parts(alloc, rest, unread)?;
            Ok(lsas.router_of(item.age, item.id, item.flags, &links)?)
        }
        "network" => {
            let attached = parts(alloc, rest, unread)?;
            Ok(lsas.network_of(item.age, (item.id, item.mask), item.by, &attached)?)
        }
        "summary" => add_summary(lsas, 3, item),
        "asbr-summary" => add_summary(lsas, 4, item),
        _ => Err(unread),
    }
}

/// The dump of a database that a text describes. Its areas are not stub areas and are in rising
/// order of their IDs, and it has no LSAs of AS scope.
///
/// # Errors
///
/// A line cannot be read, or memory ran out.
pub fn dump_of_text(alloc: Global, text: &str) -> Result<Vec<u8>, TextFault> {
    let mut areas = Vec::new(alloc);
    let mut count: usize = 0;
    for line in text.lines() {
        count = count.wrapping_add(1);
        let unread = TextFault::Line(count);
        if let Some(id) = line.strip_prefix("area ") {
            let id = number(id).ok_or(unread)?;
            areas.push((id, LsaList::new(alloc)))?;
        } else {
            let (_, lsas) = areas.last_mut().ok_or(unread)?;
            add_line(alloc, lsas, line, unread)?;
        }
    }
    Ok(dump_of(alloc, &areas, &LsaList::new(alloc))?)
}
