// The questions asked of an entry by itself.
ghost use Rattle.std.specs.Prelude.{◌≡◌, ok_or};
ghost use Rattle.ledger.specs.Entries.{numbered, stocked, small, instrument_of, entry_of};

use super::terms::{Entry, EntryRefusal, Instrument, Kind, Posting};

// The greatest size of a quantity or a value.
const MOST_SIZE: u64 = 20_000_000_000;

// Is a number one that an entry can have?
pub fn is_numbered(number: u32) -> bool
    ensures { result ≡ numbered number }
{
    (1..=999_999_999).contains(&number)
}

fn is_stocked(stock: u32) -> bool
    ensures { result ≡ stocked stock }
{
    (1..=99_999).contains(&stock)
}

fn is_small(size: i64) -> bool
    ensures { result ≡ small size }
{
    size.unsigned_abs() <= MOST_SIZE
}

// The instrument of a kind's number and a stock's number, if both are ones.
fn instrument_of(kind: u32, stock: u32) -> Result<Instrument, EntryRefusal>
    ensures { result ≡ ok_or (instrument_of kind stock) EntryRefusal.Instrument }
{
    let kind = Kind::try_from(kind)?;
    if !is_stocked(stock) {
        return Err(EntryRefusal::Instrument);
    }
    Ok(Instrument { kind, stock })
}

// The entry that is posted: first its kind and stock are asked, then its three sizes.
pub fn entry_of(posting: &Posting) -> Result<Entry, EntryRefusal>
    ensures { result ≡ entry_of posting.now }
{
    let instrument = instrument_of(posting.kind, posting.stock)?;
    let Posting {
        quantity,
        contract_value,
        market_value,
        ..
    } = *posting;
    if is_small(quantity) && is_small(contract_value) && is_small(market_value) {
        Ok(Entry {
            instrument,
            quantity,
            contract_value,
            market_value,
        })
    } else {
        Err(EntryRefusal::Size)
    }
}
