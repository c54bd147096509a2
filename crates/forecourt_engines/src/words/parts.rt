//! Words that are one number or a few.

ghost use Rattle.std.specs.Prelude.{ℕ, IfNone, IfSome};
ghost use Rattle.site_base.specs.declared.numbers.TheConstants.{GREATEST_SEQ};
ghost use Rattle.site_base.specs.declared.amounts.TheConstants.{GREATEST_READING};
ghost use Rattle.site_base.specs.declared.numbers.TheConstants.{GREATEST_SHIFT};
ghost use Rattle.forecourt_engines.specs.declared.words.parts.TheConstants.{GREATEST_AMOUNT};
ghost use Rattle.forecourt_engines.specs.declared.words.parts.TheConstants.{GREATEST_TOKEN};
ghost use Rattle.site_base.specs.declared.limits.TheConstants.{NOZZLES, POINTS, PRODUCTS, TILLS};
ghost use Rattle.site_base.specs.declared.actor.Actor.{Actor};
ghost use Rattle.site_base.specs.declared.sale.SaleId.{SaleId};
ghost use Rattle.forecourt_engines.specs.Said.{IsActorWord, IsIdWord, IsMeterWord};
ghost use Rattle.forecourt_engines.specs.Said.{IsNumberWord, IsSaleWord};

use crate::number::{number_behind, split_at_octet, strip_word};
use app_message::Token;
use site_base::{
    Actor, FpNo, GREATEST_READING, GREATEST_SEQ, GREATEST_SHIFT, Millilitres, NOZZLES, NozzleNo,
    POINTS, PRODUCTS, ProductNo, SaleId, Seq, ShiftNo, TILLS, TillNo,
};

/// The greatest number of four octets.
pub const GREATEST_AMOUNT: u64 = u32::MAX as u64;
/// The greatest token.
const GREATEST_TOKEN: u64 = 31;

/// Returns the actor of a word: `t1` is till 1, `d3` the dispenser of fuelling point 3.
pub fn actor_of(word: &[u8]) -> Option<Actor>
    ensures found { IfSome result (λ actor. IsActorWord word.now actor) }
    ensures other { IfNone result ((actor : Actor) → ¬ IsActorWord word.now actor) }
{
    if let Some(digits) = strip_word(b"t", word) {
        return match till_of(digits) {
            Some(till) => Some(Actor::Till(till)),
            None => None,
        };
    }
    let Some(digits) = strip_word(b"d", word) else {
        return None;
    };
    match point_of(digits) {
        Some(point) => Some(Actor::Dispenser(point)),
        None => None,
    }
}

/// The till of this number.
fn till_of(word: &[u8]) -> Option<TillNo>
    ensures found { IfSome result (λ t. IsNumberWord 1 TILLS word.now t) }
    ensures other { IfNone result ((t : ℕ) → ¬ IsNumberWord 1 TILLS word.now t) }
{
    let n = number_behind(b"", word, 1, u64::from(TILLS))?;
    TillNo::new(n as u8)
}

/// Returns the fuelling point of this number.
pub fn point_of(word: &[u8]) -> Option<FpNo>
    ensures found { IfSome result (λ p. IsNumberWord 1 POINTS word.now p) }
    ensures other { IfNone result ((p : ℕ) → ¬ IsNumberWord 1 POINTS word.now p) }
{
    let n = number_behind(b"", word, 1, u64::from(POINTS))?;
    FpNo::new(n as u8)
}

/// Returns the product of this number.
pub fn product_of(word: &[u8]) -> Option<ProductNo>
    ensures found { IfSome result (λ q. IsNumberWord 1 PRODUCTS word.now q) }
    ensures other { IfNone result ((q : ℕ) → ¬ IsNumberWord 1 PRODUCTS word.now q) }
{
    let n = number_behind(b"", word, 1, u64::from(PRODUCTS))?;
    ProductNo::new(n as u8)
}

/// The nozzle of this number.
fn nozzle_of(word: &[u8]) -> Option<NozzleNo>
    ensures found { IfSome result (λ n. IsNumberWord 1 NOZZLES word.now n) }
    ensures other { IfNone result ((n : ℕ) → ¬ IsNumberWord 1 NOZZLES word.now n) }
{
    let n = number_behind(b"", word, 1, u64::from(NOZZLES))?;
    NozzleNo::new(n as u8)
}

/// A meter's reading of so many millilitres.
fn reading_of(word: &[u8]) -> Option<Millilitres>
    ensures found { IfSome result (λ n. IsNumberWord 0 GREATEST_READING word.now n) }
    ensures other { IfNone result ((n : ℕ) → ¬ IsNumberWord 0 GREATEST_READING word.now n) }
{
    let n = number_behind(b"", word, 0, GREATEST_READING)?;
    Millilitres::new(n)
}

/// The shift of this number.
fn shift_of(word: &[u8]) -> Option<ShiftNo>
    ensures found { IfSome result (λ n. IsNumberWord 1 GREATEST_SHIFT word.now n) }
    ensures other { IfNone result ((n : ℕ) → ¬ IsNumberWord 1 GREATEST_SHIFT word.now n) }
{
    let n = number_behind(b"", word, 1, u64::from(GREATEST_SHIFT))?;
    ShiftNo::new(n as u16)
}

/// The transaction's number.
fn seq_of(word: &[u8]) -> Option<Seq>
    ensures found { IfSome result (λ n. IsNumberWord 1 GREATEST_SEQ word.now n) }
    ensures other { IfNone result ((n : ℕ) → ¬ IsNumberWord 1 GREATEST_SEQ word.now n) }
{
    let n = number_behind(b"", word, 1, u64::from(GREATEST_SEQ))?;
    Seq::new(n as u16)
}

/// Returns a number of four octets: cents, mills, or a preset's millilitres.
pub fn amount_of(word: &[u8]) -> Option<u32>
    ensures found { IfSome result (λ n. IsNumberWord 0 GREATEST_AMOUNT word.now n) }
    ensures other { IfNone result ((n : ℕ) → ¬ IsNumberWord 0 GREATEST_AMOUNT word.now n) }
{
    let n = number_behind(b"", word, 0, GREATEST_AMOUNT)?;
    Some(n as u32)
}

/// Returns the token of this number.
pub fn token_of(word: &[u8]) -> Option<Token>
    ensures found { IfSome result (λ n. IsNumberWord 0 GREATEST_TOKEN word.now n) }
    ensures other { IfNone result ((n : ℕ) → ¬ IsNumberWord 0 GREATEST_TOKEN word.now n) }
{
    let n = number_behind(b"", word, 0, GREATEST_TOKEN)?;
    Token::new(n as u8)
}

/// Returns a nozzle and its meter's reading: `2@1000`.
pub fn meter_of(word: &[u8]) -> Option<(NozzleNo, Millilitres)>
    ensures found { IfSome result (λ meter. IsMeterWord word.now meter.0 meter.1) }
    ensures other { IfNone result ((n reading : ℕ) → ¬ IsMeterWord word.now n reading) }
{
    let Some((first, last)) = split_at_octet(b'@', word) else {
        return None;
    };
    let Some(nozzle) = nozzle_of(first) else {
        return None;
    };
    let Some(reading) = reading_of(last) else {
        return None;
    };
    Some((nozzle, reading))
}

/// Returns a transaction of a point: `3/1`, or in shift 2 `3/2/1`.
pub fn sale_of(word: &[u8]) -> Option<(FpNo, SaleId)>
    ensures found { IfSome result (λ named. IsSaleWord word.now named.0 named.1) }
    ensures other { IfNone result ((p : ℕ) → (sale : SaleId) → ¬ IsSaleWord word.now p sale) }
{
    let Some((first, last)) = split_at_octet(b'/', word) else {
        return None;
    };
    let Some(point) = point_of(first) else {
        return None;
    };
    let Some(sale) = id_of(last) else {
        return None;
    };
    Some((point, sale))
}

/// A transaction behind its point: `1`, in shift 2 `2/1`.
fn id_of(word: &[u8]) -> Option<SaleId>
    ensures found { IfSome result (λ sale. IsIdWord word.now sale) }
    ensures other { IfNone result ((sale : SaleId) → ¬ IsIdWord word.now sale) }
{
    let Some((first, last)) = split_at_octet(b'/', word) else {
        let seq = seq_of(word)?;
        return Some(SaleId { shift: None, seq });
    };
    let Some(shift) = shift_of(first) else {
        return None;
    };
    let Some(seq) = seq_of(last) else {
        return None;
    };
    Some(SaleId {
        shift: Some(shift),
        seq,
    })
}
