/// Where an address lies among the devices.
#[derive(Clone, Copy, Debug, PartialEq, Eq)]
pub struct Place {
    /// The device, counted from 0: console, timer, finisher.
    pub device: u32,
    /// The distance of the address from the base of the device's range, in bytes.
    pub off: u32,
    /// Whether the device accepts an access of this width there.
    pub accepted: bool,
}
