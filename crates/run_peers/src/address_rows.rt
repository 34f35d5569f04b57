//! Something for each of a few addresses.

use std::alloc::Global;
use std::net::IpAddr;

/// Something for an address.
#[derive(Drop)]
struct AddressRow<T> {
    address: IpAddr,
    value: T,
}

/// Something for each of a few addresses, in the order in which they came.
#[derive(Drop)]
pub struct AddressRows<T> {
    rows: Vec<AddressRow<T>>,
}

impl<T: Drop> AddressRows<T> {
    /// For no address.
    pub fn new(alloc: Global) -> AddressRows<T> {
        AddressRows {
            rows: Vec::new(alloc),
        }
    }

    /// How many addresses there are.
    pub fn len(&self) -> usize {
        self.rows.len()
    }

    /// Where an address stands, if it does.
    pub fn position(&self, address: IpAddr) -> Option<usize> {
        self.rows.iter().position(|row| row.address == address)
    }

    /// What is at a position.
    pub fn get(&self, position: usize) -> Option<&T> {
        match self.rows.get(position) {
            Some(row) => Some(&row.value),
            None => None,
        }
    }

    /// The same, to be changed.
    pub fn get_mut(&mut self, position: usize) -> Option<&mut T> {
        match self.rows.get_mut(position) {
            Some(row) => Some(&mut row.value),
            None => None,
        }
    }

    /// Adds an address; where it stands, unless there is no memory for it.
    pub fn push(&mut self, address: IpAddr, value: T) -> Option<usize> {
        let position = self.rows.len();
        match self.rows.push(AddressRow { address, value }) {
            Ok(()) => Some(position),
            Err(_) => None,
        }
    }

    /// Puts an address in the place of another one.
    pub fn replace(&mut self, position: usize, address: IpAddr, value: T) {
        if let Some(row) = self.rows.get_mut(position) {
            *row = AddressRow { address, value };
        }
    }

    /// Forgets the address that came first.
    pub fn forget_first(&mut self) {
        if !self.rows.is_empty() {
            let _ = self.rows.remove(0);
        }
    }
}
