// The ledger with its records.

ghost use Rattle.std.specs.Prelude.{◌≡◌, min, true, Ok, OnOk, OnErr};
ghost use Rattle.std.specs.Result.{result_err};
ghost use Rattle.ledger.specs.Lists.{ledger_by};
ghost use Rattle.ledger.specs.Opening.{opened_of, records_opened};
ghost use Rattle.ledger.specs.Holding.{holding_of, records_held};
ghost use Rattle.ledger.specs.Confirming.{confirmed_of, records_confirmed};
ghost use Rattle.ledger.specs.Release.{released_of, records_released};
ghost use Rattle.ledger.specs.Spare.{spare_of};

use console::fault::{Failure, Fault};
use console::numbers::narrow;
use ledger::confirming::confirm;
use ledger::holding::{Holding, hold};
use ledger::opening::{no_ledger, open};
use ledger::release::release;
use ledger::spare::spare_rate;
use ledger::{Ledger, Record, no_record};
use quantity::Rate;
use quantity::refusal::Refusal;

// The ledger and its records, the capacities that it was opened with, and whether a path was asked for.
#[derive(Clone, Copy)]
pub struct Book {
    pub ledger: Ledger,
    records: [Record; 64],
    capacities: [u32; 16],
    begun: bool,
}

impl Book {
    // No link has capacity yet, and no path stands.
    pub fn new() -> Book {
        Book {
            ledger: no_ledger(),
            records: [no_record(); 64],
            capacities: [0; 16],
            begun: false,
        }
    }

    // The records of the paths that stand.
    pub fn paths(&self) -> &[Record] {
        self.records.get(..self.ledger.count).unwrap_or(&[])
    }

    // The ledger is opened anew.
    pub fn set_capacity(&mut self, link: u64, capacity: u64) -> Result<(), Failure>
        ensures ok { OnOk result ((opened_of self.new.capacities self.old.records ≡ Ok self.new.ledger) × (self.new.records ≡ records_opened self.new.capacities self.old.records)) }
        ensures err { OnErr result ((self.new.ledger ≡ self.old.ledger) × (self.new.records ≡ self.old.records)) }
    {
        if self.begun {
            return Err(Failure::Wrong(Fault::CapacitiesSet));
        }
        let mut capacities = self.capacities;
        // Any link above 15 has no place.
        let Some(place) = capacities.get_mut(link as usize) else {
            return Err(Failure::Refused(Refusal::OutOfRange(0)));
        };
        *place = narrow(capacity);
        self.ledger = open(capacities, &mut self.records)?;
        self.capacities = capacities;
        Ok(())
    }

    pub fn hold(&mut self, path: u64, sheet: &[u8]) -> Result<Holding, Refusal>
        ensures answer { result ≡ holding_of self.old.ledger self.old.records (min path 4_294_967_295) sheet.now }
        ensures ledger { self.new.ledger ≡ ledger_by (λ holding. holding.ledger) self.old.ledger (holding_of self.old.ledger self.old.records (min path 4_294_967_295) sheet.now) }
        ensures records { self.new.records ≡ records_held self.old.ledger self.old.records (min path 4_294_967_295) sheet.now }
        ensures opening { (self.new.begun ≡ true) × (self.new.capacities ≡ self.old.capacities) }
    {
        self.begun = true;
        let holding = hold(self.ledger, &mut self.records, narrow(path), sheet)?;
        self.ledger = holding.ledger;
        Ok(holding)
    }

    pub fn confirm(&mut self, path: u64) -> Result<(), Refusal>
        ensures answer { result ≡ confirmed_of self.old.ledger self.old.records (min path 4_294_967_295) }
        ensures ledger { self.new.ledger ≡ self.old.ledger }
        ensures records { self.new.records ≡ records_confirmed self.old.ledger self.old.records (min path 4_294_967_295) }
        ensures opening { (self.new.begun ≡ self.old.begun) × (self.new.capacities ≡ self.old.capacities) }
    {
        confirm(self.ledger, &mut self.records, narrow(path))
    }

    pub fn release(&mut self, path: u64) -> Result<(), Refusal>
        ensures answer { result_err result ≡ result_err (released_of self.old.ledger self.old.records (min path 4_294_967_295)) }
        ensures ledger { self.new.ledger ≡ ledger_by (λ ledger. ledger) self.old.ledger (released_of self.old.ledger self.old.records (min path 4_294_967_295)) }
        ensures records { self.new.records ≡ records_released self.old.ledger self.old.records (min path 4_294_967_295) }
        ensures opening { (self.new.begun ≡ self.old.begun) × (self.new.capacities ≡ self.old.capacities) }
    {
        self.ledger = release(self.ledger, &mut self.records, narrow(path))?;
        Ok(())
    }

    pub fn spare(&self, link: u64) -> Result<Rate, Refusal>
        ensures { result ≡ spare_of self.now.ledger (min link 4_294_967_295) }
    {
        spare_rate(self.ledger, narrow(link))
    }
}
