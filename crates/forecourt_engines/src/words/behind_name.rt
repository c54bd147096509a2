//! Reads what follows the name of an event: a number of words, and no more. Each word is checked
//! before the next one is looked for, so the fault names the first wrong one.

ghost use Rattle.std.specs.Prelude.{◌≡◌, ◌≢◌, ◌≤◌, ◌∷◌, ℕ, [], decimal, map, IfOk, OnErr};
ghost use Rattle.std.specs.Prelude.{OnOk};
ghost use Rattle.site_base.specs.declared.sale.SaleId.{SaleId};
ghost use Rattle.site_base.specs.declared.state.Preset.{Preset};
ghost use Rattle.forecourt_engines.specs.Said.{AreMeter, ArePoint, ArePointAmount, AreProduct};
ghost use Rattle.forecourt_engines.specs.declared.words.behind_name.TheConstants.{LAST};
ghost use Rattle.forecourt_engines.specs.declared.words.parts.TheConstants.{GREATEST_AMOUNT};
ghost use Rattle.forecourt_engines.specs.Said.{AreProductAmount, AreRelease, AreSale, IsLimit};

use crate::number::is_word;
use crate::words::parts::{amount_of, meter_of, point_of, product_of, sale_of};
use crate::words::places::{expect_end, split_first};
use crate::words::wrong_word::{Wanted, WrongWord};
use site_base::{FpNo, Millilitres, NozzleNo, Preset, ProductNo, SaleId};

/// The place in its line of the first word behind the name.
const FIRST: usize = 3;
/// The place of the last word that a line without a token can have.
const LAST: usize = 5;

/// Reads no word.
pub fn read_nothing(words: &[&[u8]]) -> Result<(), WrongWord>
    ensures found { OnOk result (map (λ w. w.now) words.now ≡ []) }
    ensures other { OnErr result (map (λ w. w.now) words.now ≢ []) }
{
    expect_end(words, FIRST)
}

/// Reads a fuelling point.
pub fn read_point(words: &[&[u8]]) -> Result<FpNo, WrongWord>
    ensures found { IfOk result (λ p. ArePoint (map (λ w. w.now) words.now) p) }
    ensures other { OnErr result ((p : ℕ) → ¬ ArePoint (map (λ w. w.now) words.now) p) }
{
    let (first, rest) = split_first(words, FIRST, Wanted::Point)?;
    let Some(p) = point_of(first) else {
        return Err(WrongWord::new(FIRST, Wanted::Point));
    };
    expect_end(rest, FIRST + 1)?;
    Ok(p)
}

/// Reads a product.
pub fn read_product(words: &[&[u8]]) -> Result<ProductNo, WrongWord>
    ensures found { IfOk result (λ q. AreProduct (map (λ w. w.now) words.now) q) }
    ensures other { OnErr result ((q : ℕ) → ¬ AreProduct (map (λ w. w.now) words.now) q) }
{
    let (first, rest) = split_first(words, FIRST, Wanted::Product)?;
    let Some(q) = product_of(first) else {
        return Err(WrongWord::new(FIRST, Wanted::Product));
    };
    expect_end(rest, FIRST + 1)?;
    Ok(q)
}

/// Reads a transaction of a fuelling point.
pub fn read_sale(words: &[&[u8]]) -> Result<(FpNo, SaleId), WrongWord>
    ensures found { IfOk result (λ named.
        AreSale (map (λ w. w.now) words.now) named.0 named.1) }
    ensures other { OnErr result ((p : ℕ) → (sale : SaleId)
        → ¬ AreSale (map (λ w. w.now) words.now) p sale) }
{
    let (first, rest) = split_first(words, FIRST, Wanted::Transaction)?;
    let Some(named) = sale_of(first) else {
        return Err(WrongWord::new(FIRST, Wanted::Transaction));
    };
    expect_end(rest, FIRST + 1)?;
    Ok(named)
}

/// Reads a fuelling point, and a nozzle with its meter's reading.
pub fn read_meter(words: &[&[u8]]) -> Result<(FpNo, NozzleNo, Millilitres), WrongWord>
    ensures found { IfOk result (λ read.
        AreMeter (map (λ w. w.now) words.now) read.0 read.1 read.2) }
    ensures other { OnErr result ((p n reading : ℕ)
        → ¬ AreMeter (map (λ w. w.now) words.now) p n reading) }
{
    let (first, rest) = split_first(words, FIRST, Wanted::Point)?;
    let Some(p) = point_of(first) else {
        return Err(WrongWord::new(FIRST, Wanted::Point));
    };
    let (second, others) = split_first(rest, FIRST + 1, Wanted::Meter)?;
    let Some((n, reading)) = meter_of(second) else {
        return Err(WrongWord::new(FIRST + 1, Wanted::Meter));
    };
    expect_end(others, FIRST + 2)?;
    Ok((p, n, reading))
}

/// Reads a fuelling point, and an amount.
pub fn read_point_amount(words: &[&[u8]]) -> Result<(FpNo, u32), WrongWord>
    ensures found { IfOk result (λ read.
        ArePointAmount (map (λ w. w.now) words.now) read.0 read.1) }
    ensures other { OnErr result ((p amount : ℕ)
        → ¬ ArePointAmount (map (λ w. w.now) words.now) p amount) }
{
    let (first, rest) = split_first(words, FIRST, Wanted::Point)?;
    let Some(p) = point_of(first) else {
        return Err(WrongWord::new(FIRST, Wanted::Point));
    };
    let amount = read_amount(rest, FIRST + 1)?;
    Ok((p, amount))
}

/// Reads a product, and an amount.
pub fn read_product_amount(words: &[&[u8]]) -> Result<(ProductNo, u32), WrongWord>
    ensures found { IfOk result (λ read.
        AreProductAmount (map (λ w. w.now) words.now) read.0 read.1) }
    ensures other { OnErr result ((q amount : ℕ)
        → ¬ AreProductAmount (map (λ w. w.now) words.now) q amount) }
{
    let (first, rest) = split_first(words, FIRST, Wanted::Product)?;
    let Some(q) = product_of(first) else {
        return Err(WrongWord::new(FIRST, Wanted::Product));
    };
    let amount = read_amount(rest, FIRST + 1)?;
    Ok((q, amount))
}

/// Reads a fuelling point, and the limit of its release.
pub fn read_release(words: &[&[u8]]) -> Result<(FpNo, Preset), WrongWord>
    ensures found { IfOk result (λ read.
        AreRelease (map (λ w. w.now) words.now) read.0 read.1) }
    ensures other { OnErr result ((p : ℕ) → (preset : Preset)
        → ¬ AreRelease (map (λ w. w.now) words.now) p preset) }
{
    let (first, rest) = split_first(words, FIRST, Wanted::Point)?;
    let Some(p) = point_of(first) else {
        return Err(WrongWord::new(FIRST, Wanted::Point));
    };
    let limit = read_limit(rest)?;
    Ok((p, limit))
}

/// What a release is limited by.
fn read_limit(words: &[&[u8]]) -> Result<Preset, WrongWord>
    ensures found { IfOk result (λ preset. IsLimit (map (λ w. w.now) words.now) preset) }
    ensures other { OnErr result ((preset : Preset)
        → ¬ IsLimit (map (λ w. w.now) words.now) preset) }
{
    let Some((kind, rest)) = words.split_first() else {
        return Ok(Preset::Unset);
    };
    if is_word(kind, b"volume") {
        let millilitres = read_amount(rest, FIRST + 2)?;
        return Ok(Preset::Volume(millilitres));
    }
    if is_word(kind, b"money") {
        let cents = read_amount(rest, FIRST + 2)?;
        return Ok(Preset::Money(cents));
    }
    Err(WrongWord::new(FIRST + 1, Wanted::Limit))
}

/// An amount and nothing behind it, at this place in its line.
fn read_amount(words: &[&[u8]], place: usize) -> Result<u32, WrongWord>
    requires { place ≤ LAST }
    ensures found { IfOk result (λ n.
        (map (λ w. w.now) words.now ≡ decimal n ∷ []) × (n ≤ GREATEST_AMOUNT)) }
    ensures other { OnErr result ((n : ℕ) → n ≤ GREATEST_AMOUNT
        → map (λ w. w.now) words.now ≢ decimal n ∷ []) }
{
    let (first, rest) = split_first(words, place, Wanted::Amount)?;
    let Some(amount) = amount_of(first) else {
        return Err(WrongWord::new(place, Wanted::Amount));
    };
    expect_end(rest, place + 1)?;
    Ok(amount)
}
