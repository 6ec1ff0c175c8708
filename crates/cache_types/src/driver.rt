ghost use Rattle.std.specs.Prelude.{◌≡◌, ◌⊎◌, ◌↔◌, ◌≤◌, length, IfOk, IfSome, IsNone, IsTrue, Err};
ghost use Rattle.cache_types.specs.Driver.{DriverKeys, blob_of, IsDriverText, IsDriver, Fronts, HasNoFront};

use crate::bytes::Bytes;
use crate::front::front_of;
use crate::limits::{CACHE_VERSION, MAX_DRIVER_TEXT, POINTER_SIZE};
use crate::memory::NoMemory;
use std::alloc::Global;
use std::marker::Model;

/// Why there is no such driver.
#[derive(Clone, Copy, Debug, PartialEq, Eq)]
pub enum DriverError {
    /// The id or the GPU name has more than 255 bytes, or a zero byte.
    BadText,
    /// Memory ran out.
    NoMemory,
}

/// A driver, which contracts see as its id, its GPU's name and its flags. It keeps the bytes that stand
/// at the front of each of its items.
#[derive(Debug)]
pub struct Driver {
    bytes: Bytes,
    id_end: u64,
    gpu_end: u64,
    flags: u64,
}

impl Drop for Driver {
    fn drop(self) {
        let Driver {
            bytes: _bytes,
            id_end: _,
            gpu_end: _,
            flags: _,
        } = self;
    }
}

impl Model for Driver {
    ghost use Rattle.cache_types.specs.Driver.{DriverKeys};

    ghost Value = { DriverKeys };

    ghost use Rattle.cache_types.specs.DriverParts.{keys_of, IsFront};

    ghost view = { keys_of };

    ghost invariant = { IsFront };
}

/// Whether a text can stand in a driver: at most 255 bytes and no zero byte.
pub fn is_driver_text(text: &[u8]) -> bool
    ensures { IsTrue result ↔ IsDriverText text.now }
{
    if text.len() > MAX_DRIVER_TEXT {
        return false;
    }
    let mut rest = text;
    while let [byte, tail @ ..] = rest {
        if *byte == 0 {
            return false;
        }
        rest = tail;
    }
    true
}

/// The bytes at the front of an item of this driver.
#[tactic(auto, unfolding(crate::specs::Driver::blob_of))]
fn spelled(alloc: Global, id: &[u8], gpu: &[u8], flags: u64) -> Result<Vec<u8>, NoMemory>
    requires id { length id.now ≤ 255 }
    requires gpu { length gpu.now ≤ 255 }
    ensures { IfOk result (λ v. v.items ≡ blob_of (record { id = id.now; gpu = gpu.now; flags = flags })) }
{
    let mut bytes = Vec::with_capacity(alloc, id.len() + gpu.len() + 12)?;
    bytes.push(CACHE_VERSION)?;
    bytes.extend_from_slice(id)?;
    bytes.push(0)?;
    bytes.extend_from_slice(gpu)?;
    bytes.push(0)?;
    bytes.push(POINTER_SIZE)?;
    bytes.extend_from_slice(&flags.to_le_bytes())?;
    Ok(bytes)
}

impl Driver {
    /// A driver of this id, GPU name and flags.
    ///
    /// # Errors
    ///
    /// `BadText` exactly where the id or the GPU name has more than 255 bytes or a zero byte;
    /// `NoMemory`.
    pub fn new(alloc: Global, id: &str, gpu: &str, flags: u64) -> Result<Driver, DriverError>
        ensures made { IfOk result (λ d. d ≡ record { id = id.now; gpu = gpu.now; flags = flags }) }
        ensures bad { (result ≡ Err DriverError.BadText) ↔ ((¬ IsDriverText id.now) ⊎ (¬ IsDriverText gpu.now)) }
    {
        let (id, gpu) = (id.as_bytes(), gpu.as_bytes());
        if !is_driver_text(id) || !is_driver_text(gpu) {
            return Err(DriverError::BadText);
        }
        let Ok(bytes) = spelled(alloc, id, gpu, flags) else {
            return Err(DriverError::NoMemory);
        };
        let id_end = id.len() as u64 + 1;
        let gpu_end = id_end + 1 + gpu.len() as u64;
        Ok(Driver {
            bytes: Bytes::from_vec(bytes),
            id_end,
            gpu_end,
            flags,
        })
    }

    /// The driver whose blob stands in front of the bytes, and None exactly where no driver's does. There
    /// is at most one. Its id and its GPU name needn't be UTF-8. It keeps the memory of the bytes and
    /// takes none.
    pub fn of_front(bytes: Bytes) -> Option<Driver>
        ensures found { IfSome result (λ d. Fronts bytes d) }
        ensures only { (d : DriverKeys) → Fronts bytes d → result ≡ Some d }
        ensures none { IsNone result ↔ HasNoFront bytes }
    {
        let front = front_of(bytes.as_slice())?;
        let id_end = front.id_len + 1;
        Some(Driver {
            bytes,
            id_end,
            gpu_end: id_end + 1 + front.gpu_len,
            flags: front.flags,
        })
    }

    /// The bytes at the front of each item of this driver, 12 to 522 of them. Takes no memory.
    pub fn blob(&self) -> &[u8]
        ensures bytes { result.now ≡ blob_of self.now }
        ensures short { length result.now ≤ 522 }
    {
        &self.bytes.as_slice()[..self.gpu_end as usize + 10]
    }

    /// What is known of every driver: its texts can stand in one, and its blob is short.
    pub fn known(&self)
        ensures fits { IsDriver self.now }
        ensures short { length (blob_of self.now) ≤ 522 }
    {
        let _flags = self.flags;
        let _blob = self.blob();
    }

    /// Whether two drivers are one. Takes no memory.
    pub fn is(&self, other: &Driver) -> bool
        ensures { IsTrue result ↔ (self.now ≡ other.now) }
    {
        self.flags == other.flags && self.blob() == other.blob()
    }

    /// The same driver in memory of its own.
    pub fn copy(&self) -> Result<Driver, NoMemory>
        ensures { IfOk result (λ d. d ≡ self.now) }
    {
        Ok(Driver {
            bytes: self.bytes.copy()?,
            id_end: self.id_end,
            gpu_end: self.gpu_end,
            flags: self.flags,
        })
    }
}

/// The driver keys blob: what stands at the front of each item of the driver, and what keys are made of.
pub fn driver_blob(alloc: Global, driver: &Driver) -> Result<Bytes, NoMemory>
    ensures { IfOk result (λ b. b ≡ blob_of driver.now) }
{
    Bytes::of(alloc, driver.blob())
}

/// The length of the driver keys blob in bytes, 12 to 522. Takes no memory.
pub fn blob_len(driver: &Driver) -> u64
    ensures { result ≡ length (blob_of driver.now) }
{
    driver.blob().len() as u64
}
