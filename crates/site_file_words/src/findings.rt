//! All faults of a site file's tree that can be found independently of each other.

use crate::spots::{Owner, Spot};
use site_base::{
    GREATEST_PRICE, GREATEST_READING, GREATEST_ROWS, NOZZLES, NoMemory, POINTS, PRODUCTS,
    ProductName, TILLS,
};
use site_file::Key;
use std::alloc::Global;
use toml::{Table, Value};

/// How many faults are looked for.
const MOST_FINDINGS: usize = 1_000;

/// What is wrong.
#[derive(Clone, Copy, Debug)]
pub enum Why {
    /// A table has a key that isn't one of its keys.
    Unknown,
    /// A table doesn't have this key.
    Missing(Key),
    /// A value isn't of its kind.
    Kind,
    /// A value is out of its range.
    Range,
    /// A list has too few or too many members: this number.
    Members(usize),
    /// The value is also at an earlier member of the list, at this place.
    Repeated(usize),
    /// No product has this number.
    NoProduct,
}

/// A fault, and what has it.
#[derive(Clone, Copy, Debug)]
pub struct Finding<'a> {
    /// What has it. A missing key is a fault of its table.
    pub spot: Spot<'a>,
    /// What is wrong.
    pub why: Why,
}

impl<'a> Finding<'a> {
    /// Returns the fault's number.
    pub fn number(&self) -> u8 {
        match self.why {
            Why::Unknown => 71,
            Why::Missing(_) => 72,
            Why::Kind => 73,
            Why::Range | Why::Members(_) => 74,
            Why::Repeated(_) => 75,
            Why::NoProduct => 76,
        }
    }
}

/// Returns the faults of the file, in the order in which a site file is checked.
pub fn findings_of<'a>(alloc: Global, file: &'a Table) -> Result<Vec<Finding<'a>>, NoMemory> {
    let mut found = Findings::new(alloc);
    found.look_at_file(file)?;
    Ok(found.list)
}

/// The numbers and names of a list's members, with their places.
#[derive(Drop)]
struct Taken<'a> {
    numbers: Vec<(u64, usize)>,
    names: Vec<(&'a str, usize)>,
    /// Has each member a number of its own?
    is_whole: bool,
}

impl<'a> Taken<'a> {
    fn new(alloc: Global) -> Self {
        Taken {
            numbers: Vec::new(alloc),
            names: Vec::new(alloc),
            is_whole: true,
        }
    }

    /// Where this number stands.
    fn find_number(&self, number: u64) -> Option<usize> {
        for (other, place) in &self.numbers {
            if *other == number {
                return Some(*place);
            }
        }
        None
    }

    /// Where this name stands.
    fn find_name(&self, name: &str) -> Option<usize> {
        for (other, place) in &self.names {
            if *other == name {
                return Some(*place);
            }
        }
        None
    }
}

/// The faults found so far.
#[derive(Drop)]
struct Findings<'a> {
    alloc: Global,
    list: Vec<Finding<'a>>,
}

impl<'a> Findings<'a> {
    fn new(alloc: Global) -> Self {
        Findings {
            alloc,
            list: Vec::new(alloc),
        }
    }

    fn add(&mut self, spot: Spot<'a>, why: Why) -> Result<(), NoMemory> {
        if self.list.len() < MOST_FINDINGS {
            self.list.push(Finding { spot, why })?;
        }
        Ok(())
    }

    fn look_at_file(&mut self, file: &'a Table) -> Result<(), NoMemory> {
        let known = [Key::Rows, Key::Managers, Key::Product, Key::Point];
        self.look_for_unknown(Owner::File, file, &known)?;
        if let Some(rows) = file.get(Key::Rows.text()) {
            let spot = Spot::Value(Owner::File, b"rows");
            let _ = self.whole_in(spot, rows, 1, u64::from(GREATEST_ROWS))?;
        }
        if let Some(managers) = file.get(Key::Managers.text()) {
            self.look_at_managers(managers)?;
        }
        let products = self.look_at_products(file)?;
        self.look_at_points(file, &products)
    }

    fn look_for_unknown(
        &mut self,
        owner: Owner,
        table: &'a Table,
        known: &[Key],
    ) -> Result<(), NoMemory> {
        for name in table.keys() {
            if !is_known(name.as_str(), known) {
                self.add(Spot::Value(owner, name.as_str().as_bytes()), Why::Unknown)?;
            }
        }
        Ok(())
    }

    fn look_at_managers(&mut self, managers: &'a Value) -> Result<(), NoMemory> {
        let Value::Array(managers) = managers else {
            return self.add(Spot::Value(Owner::File, b"managers"), Why::Kind);
        };
        let mut taken = Taken::new(self.alloc);
        let mut place = 0usize;
        for manager in managers {
            place = place.saturating_add(1);
            let spot = Spot::Manager(place);
            let till = self.whole_in(spot, manager, 1, u64::from(TILLS))?;
            if let Some(till) = till {
                self.take_number(&mut taken, spot, till, place)?;
            }
        }
        Ok(())
    }

    /// The products' numbers and names.
    fn look_at_products(&mut self, file: &'a Table) -> Result<Taken<'a>, NoMemory> {
        let mut taken = Taken::new(self.alloc);
        let Some(products) = self.list_at(Owner::File, file, Key::Product, PRODUCTS)? else {
            taken.is_whole = false;
            return Ok(taken);
        };
        let mut place = 0usize;
        for product in products {
            place = place.saturating_add(1);
            match product {
                Value::Table(product) => self.look_at_product(place, product, &mut taken)?,
                _ => {
                    taken.is_whole = false;
                    self.add(Spot::Whole(Owner::Product(place)), Why::Kind)?;
                }
            }
        }
        Ok(taken)
    }

    fn look_at_product(
        &mut self,
        place: usize,
        product: &'a Table,
        taken: &mut Taken<'a>,
    ) -> Result<(), NoMemory> {
        let owner = Owner::Product(place);
        self.look_for_unknown(owner, product, &[Key::Number, Key::Name, Key::Price])?;
        match self.whole_at(owner, product, Key::Number, 1, u64::from(PRODUCTS))? {
            Some(number) => {
                self.take_number(taken, Spot::Value(owner, b"number"), number, place)?;
            }
            None => taken.is_whole = false,
        }
        self.look_at_name(place, product, taken)?;
        let _ = self.whole_at(owner, product, Key::Price, 1, u64::from(GREATEST_PRICE))?;
        Ok(())
    }

    fn look_at_name(
        &mut self,
        place: usize,
        product: &'a Table,
        taken: &mut Taken<'a>,
    ) -> Result<(), NoMemory> {
        let owner = Owner::Product(place);
        let spot = Spot::Value(owner, b"name");
        match self.value_at(owner, product, Key::Name)? {
            None => Ok(()),
            Some(Value::String(name)) => {
                let name = name.as_str();
                if ProductName::new(String::from_str(self.alloc, name)?).is_none() {
                    return self.add(spot, Why::Range);
                }
                match taken.find_name(name) {
                    Some(earlier) => self.add(spot, Why::Repeated(earlier)),
                    None => {
                        taken.names.push((name, place))?;
                        Ok(())
                    }
                }
            }
            Some(_) => self.add(spot, Why::Kind),
        }
    }

    fn look_at_points(&mut self, file: &'a Table, products: &Taken<'a>) -> Result<(), NoMemory> {
        let Some(points) = self.list_at(Owner::File, file, Key::Point, POINTS)? else {
            return Ok(());
        };
        let mut taken = Taken::new(self.alloc);
        let mut place = 0usize;
        for point in points {
            place = place.saturating_add(1);
            match point {
                Value::Table(point) => self.look_at_point(place, point, products, &mut taken)?,
                _ => self.add(Spot::Whole(Owner::Point(place)), Why::Kind)?,
            }
        }
        Ok(())
    }

    fn look_at_point(
        &mut self,
        place: usize,
        point: &'a Table,
        products: &Taken<'a>,
        taken: &mut Taken<'a>,
    ) -> Result<(), NoMemory> {
        let owner = Owner::Point(place);
        self.look_for_unknown(owner, point, &[Key::Number, Key::Nozzles])?;
        if let Some(number) = self.whole_at(owner, point, Key::Number, 1, u64::from(POINTS))? {
            self.take_number(taken, Spot::Value(owner, b"number"), number, place)?;
        }
        let Some(nozzles) = self.list_at(owner, point, Key::Nozzles, NOZZLES)? else {
            return Ok(());
        };
        let mut nozzle = 0usize;
        for value in nozzles {
            nozzle = nozzle.saturating_add(1);
            self.look_at_nozzle(Owner::Nozzle(place, nozzle), value, products)?;
        }
        Ok(())
    }

    fn look_at_nozzle(
        &mut self,
        owner: Owner,
        nozzle: &'a Value,
        products: &Taken<'a>,
    ) -> Result<(), NoMemory> {
        let Value::Table(nozzle) = nozzle else {
            return self.add(Spot::Whole(owner), Why::Kind);
        };
        self.look_for_unknown(owner, nozzle, &[Key::Product, Key::Reading])?;
        let spot = Spot::Value(owner, b"product");
        match self.value_at(owner, nozzle, Key::Product)? {
            None => {}
            Some(Value::Integer(number)) => {
                if products.is_whole && !is_taken(products, *number) {
                    self.add(spot, Why::NoProduct)?;
                }
            }
            Some(_) => self.add(spot, Why::Kind)?,
        }
        let _ = self.whole_at(owner, nozzle, Key::Reading, 0, GREATEST_READING)?;
        Ok(())
    }

    /// Takes a number that is new; one that isn't is a fault.
    fn take_number(
        &mut self,
        taken: &mut Taken<'a>,
        spot: Spot<'a>,
        number: u64,
        place: usize,
    ) -> Result<(), NoMemory> {
        match taken.find_number(number) {
            Some(earlier) => {
                taken.is_whole = false;
                self.add(spot, Why::Repeated(earlier))
            }
            None => {
                taken.numbers.push((number, place))?;
                Ok(())
            }
        }
    }

    /// What stands at a key, which must be there.
    fn value_at(
        &mut self,
        owner: Owner,
        table: &'a Table,
        key: Key,
    ) -> Result<Option<&'a Value>, NoMemory> {
        let value = table.get(key.text());
        if value.is_none() {
            self.add(Spot::Whole(owner), Why::Missing(key))?;
        }
        Ok(value)
    }

    /// The whole number from low to high at a key, which must be there.
    fn whole_at(
        &mut self,
        owner: Owner,
        table: &'a Table,
        key: Key,
        low: u64,
        high: u64,
    ) -> Result<Option<u64>, NoMemory> {
        match self.value_at(owner, table, key)? {
            Some(value) => {
                let spot = Spot::Value(owner, key.text().as_bytes());
                self.whole_in(spot, value, low, high)
            }
            None => Ok(None),
        }
    }

    /// A whole number from low to high.
    fn whole_in(
        &mut self,
        spot: Spot<'a>,
        value: &Value,
        low: u64,
        high: u64,
    ) -> Result<Option<u64>, NoMemory> {
        let Value::Integer(number) = value else {
            self.add(spot, Why::Kind)?;
            return Ok(None);
        };
        match u64::try_from(*number) {
            Ok(number) if low <= number && number <= high => Ok(Some(number)),
            _ => {
                self.add(spot, Why::Range)?;
                Ok(None)
            }
        }
    }

    /// The members of the list of 1 to `most` at a key, which must be there; of a list that is too
    /// long the first ones.
    fn list_at(
        &mut self,
        owner: Owner,
        table: &'a Table,
        key: Key,
        most: u8,
    ) -> Result<Option<&'a [Value]>, NoMemory> {
        let spot = Spot::Value(owner, key.text().as_bytes());
        match self.value_at(owner, table, key)? {
            None => Ok(None),
            Some(Value::Array(list)) => {
                let members = list.as_slice();
                let most = usize::from(most);
                if members.is_empty() || most < members.len() {
                    self.add(spot, Why::Members(members.len()))?;
                }
                Ok(Some(&members[..most.min(members.len())]))
            }
            Some(_) => {
                self.add(spot, Why::Kind)?;
                Ok(None)
            }
        }
    }
}

fn is_known(name: &str, known: &[Key]) -> bool {
    known.iter().any(|key| name == key.text())
}

/// Has a product this number?
fn is_taken(products: &Taken<'_>, number: i64) -> bool {
    match u64::try_from(number) {
        Ok(number) => products.find_number(number).is_some(),
        Err(_) => false,
    }
}
