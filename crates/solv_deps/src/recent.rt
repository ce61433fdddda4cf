//! Texts that were read a while ago. Most lines of a repository say what another line says, so a text is looked for here
//! before it is read.
ghost use Rattle.std.specs.Prelude.{ℕ, ◌≡◌, ◌<◌, ◌≤◌, ◌&&◌, length, take, Ok, Err, IfOk, IfErr, IfSome, true, ◌↔◌};
ghost use Rattle.solv_base.specs.Pool.{Held, Grows, text_tree};
ghost use Rattle.solv_deps.specs.declared.fault.DepFault.{DepFault as Cause};
ghost use Rattle.solv_deps.specs.Reading.{dependency};
ghost use Rattle.solv_deps.specs.Inner.Entering.{text_read, IsRefusal, IsOfPool};
ghost use Rattle.solv_deps.specs.Inner.Recent.{row_text, IsRead, AreRead};

use crate::dependency::read_dep;
use crate::fault::DepFault;
use crate::laws::held_is_entered;
use crate::place::Place;
use solv_base::{DepId, Pool};
use std::alloc::Global;
use std::hash::{FoldHasher, Hasher};

/// How many texts are kept, each at the place that its hash gives.
const ROOM: usize = 8192;

/// How many bytes are to be read where it is worth while to keep texts.
const WORTH: usize = 1 << 16;

/// The longest text that is kept. A row then has 64 bytes.
const MOST: usize = 58;

/// A text, where it stood, and what it gave. A row of no bytes is none.
#[derive(Clone, Copy)]
pub(crate) struct Row {
    id: DepId,
    place: Place,
    len: u8,
    bytes: [u8; MOST],
}

/// Where a text may be kept, and its sign there: two parts of its hash.
#[derive(Clone, Copy)]
struct Spot {
    at: usize,
    sign: u8,
}

/// Texts that were read into one pool, each with what it gave, and their signs, of which many lie together: a row is looked at where the sign of its text is that
/// of the text in question. Where there is no memory for them it keeps none.
#[derive(Drop)]
pub struct Recent {
    rows: Vec<Row>,
    signs: Vec<u8>,
}

/// A row of no text.
fn no_row() -> Row
    ensures { (pool : Held) → IsRead pool result }
{
    Row {
        id: DepId(0),
        place: Place::Plain,
        len: 0,
        bytes: [0; MOST],
    }
}

/// A row of a text.
fn row_of(text: &[u8], place: Place, id: DepId) -> Row
    requires { length text.now ≤ 58 }
    ensures { (pool : Held) → dependency place text.now ≡ Ok (text_tree pool id) → id < length pool.nodes → IsRead pool result }
{
    let mut bytes = [0; MOST];
    bytes[..text.len()].copy_from_slice(text);
    Row {
        id,
        place,
        len: text.len() as u8,
        bytes,
    }
}

/// The text of a row.
fn text_of(row: &Row) -> &[u8]
    ensures { result.now ≡ row_text row.now }
{
    let len = row.len as usize;
    if len > MOST {
        return &row.bytes;
    }
    &row.bytes[..len]
}

/// What a row gave, where it is of this text at this place.
fn given(row: &Row, text: &[u8], place: Place) -> Option<DepId>
    ensures { IfSome result (λ id. (pool : Held) → IsRead pool row.now → (dependency place text.now ≡ Ok (text_tree pool id)) × (id < length pool.nodes)) }
{
    if row.len == 0 {
        return None;
    }
    if row.place != place {
        return None;
    }
    if text_of(row) != text {
        return None;
    }
    Some(row.id)
}

/// Signs of no texts, or none where there is no memory for them.
fn signs(alloc: Global) -> Vec<u8> {
    match Vec::from_elem(alloc, 0, ROOM) {
        Ok(signs) => signs,
        Err(_) => Vec::new(alloc),
    }
}

/// Where a text may be kept.
fn spot_of(text: &[u8]) -> Spot {
    let mut hasher = FoldHasher::default();
    hasher.write(text);
    let hash = hasher.finish();
    Spot {
        at: (hash % ROOM as u64) as usize,
        sign: (hash >> 56) as u8,
    }
}

impl Recent {
    /// No texts, and room for some where so many bytes are to be read that it is worth while and there is memory.
    pub fn new(alloc: Global, bytes: usize) -> Recent
        ensures { (pool : Held) → AreRead pool result }
    {
        if bytes >= WORTH {
            if let Ok(rows) = Vec::from_elem(alloc, no_row(), ROOM) {
                return Recent {
                    rows,
                    signs: signs(alloc),
                };
            }
        }
        Recent {
            rows: Vec::new(alloc),
            signs: Vec::new(alloc),
        }
    }

    /// What a text gave, where it is among those that are kept.
    fn find(&self, text: &[u8], place: Place, spot: Spot) -> Option<DepId>
        ensures { IfSome result (λ id. (pool : Held) → AreRead pool self.now → (dependency place text.now ≡ Ok (text_tree pool id)) × (id < length pool.nodes)) }
    {
        if *self.signs.get(spot.at)? != spot.sign {
            return None;
        }
        given(self.rows.get(spot.at)?, text, place)
    }

    /// Keeps what a text gave, in the place of what was kept there.
    fn keep(&mut self, text: &[u8], place: Place, spot: Spot, id: DepId)
        ensures { (pool : Held) → AreRead pool self.old → dependency place text.now ≡ Ok (text_tree pool id) → id < length pool.nodes → AreRead pool self.new }
    {
        let at = spot.at;
        if text.len() <= MOST && at < self.rows.len() && at < self.signs.len() {
            self.rows[at] = row_of(text, place, id);
            self.signs[at] = spot.sign;
        }
    }
}

/// The dependency that a text spells at a place, as `read_dep` reads it, from what was read before or anew. What was read
/// has to be of this pool. What a package provides or obsoletes is seldom said twice, and is always read anew.
pub fn read_again(
    pool: &mut Pool,
    recent: &mut Recent,
    text: &[u8],
    place: Place,
) -> Result<DepId, DepFault>
    requires { AreRead pool.old recent.old }
    ensures read { IfOk result (λ id. dependency place text.now ≡ Ok (text_tree pool.new id)) }
    ensures within { IfOk result (λ id. id < length pool.new.nodes) }
    ensures entered { IfOk result (λ id. text_read place text.now pool.old ≡ Ok (record { id = id; held = pool.new })) }
    ensures cause { (e : Cause) → (IsOfPool e → ⊥) → (result ≡ Err e ↔ dependency place text.now ≡ Err e) }
    ensures unchanged { (e : Cause) → dependency place text.now ≡ Err e → pool.new ≡ pool.old }
    ensures refused { IfErr result (λ e. IsRefusal e (text_read place text.now pool.old)) }
    ensures grows { Grows pool.old pool.new }
    ensures kept { AreRead pool.new recent.new }
{
    if place == Place::Plain {
        return read_dep(pool, text, place);
    }
    let spot = spot_of(text);
    if let Some(id) = recent.find(text, place, spot) {
        pool.holds_each_once();
        held_is_entered();
        return Ok(id);
    }
    let read = read_dep(pool, text, place);
    if let Ok(id) = read {
        recent.keep(text, place, spot, id);
    }
    read
}
