//! Subnets, addresses and data identifiers of the protocol, each written once.

/// The subnet and the node of the site.
pub const SITE_SUBNET: u8 = 0x01;

pub const SITE_NODE: u8 = 0x01;

/// The subnet of the tills: till t is node t.
pub const TILL_SUBNET: u8 = 0x02;

/// The subnet of the dispensers: the dispenser of point p is node p.
pub const DISPENSER_SUBNET: u8 = 0x03;

/// The address of the site's database.
pub const SITE_ADDRESS: u8 = 0x01;

/// What is added to a fuelling point's number in its address.
pub const POINT_ADDRESS: u8 = 0x20;

/// What follows a fuelling point's address that names one of its transactions of the open shift.
pub const TRANSACTION_FORM: u8 = 0x21;

/// What follows a fuelling point's address that names a transaction with its shift.
pub const SHIFT_FORM: u8 = 0x22;

/// What is added to a product's number in its address.
pub const PRODUCT_ADDRESS: u8 = 0x80;

// Commands.
pub const SIGN_ON: u8 = 0x31;

pub const SIGN_OFF: u8 = 0x32;

pub const CLOSE_SHIFT: u8 = 0x33;

pub const OPEN: u8 = 0x3C;

pub const CLOSE: u8 = 0x3D;

pub const RELEASE: u8 = 0x3E;

pub const TERMINATE: u8 = 0x3F;

pub const SUSPEND: u8 = 0x40;

pub const RESUME: u8 = 0x41;

pub const ASSIGN: u8 = 0x42;

pub const UNASSIGN: u8 = 0x43;

pub const PREPAY: u8 = 0x44;

pub const TEST_RELEASE: u8 = 0x45;

pub const REPLACE_METER: u8 = 0x46;

pub const ONLINE: u8 = 0x60;

pub const OFFLINE: u8 = 0x61;

pub const LIFT: u8 = 0x62;

pub const FLOW: u8 = 0x63;

pub const HANG_UP: u8 = 0x64;

pub const LOCK: u8 = 0x80;

pub const UNLOCK: u8 = 0x81;

pub const CLEAR: u8 = 0x82;

pub const SET_PRICE: u8 = 0x90;

// What stands behind commands, and what replies tell.
pub const RESULT: u8 = 0x01;

pub const DETAIL: u8 = 0x02;

pub const OUTCOME: u8 = 0x03;

pub const STATE: u8 = 0x10;

pub const NOZZLE_OUT: u8 = 0x11;

pub const HOLDER: u8 = 0x12;

pub const ENDING: u8 = 0x13;

pub const TEST: u8 = 0x14;

pub const PRESET_VOLUME: u8 = 0x50;

pub const PRESET_MONEY: u8 = 0x51;

pub const NOZZLE: u8 = 0x70;

pub const READING: u8 = 0x71;

pub const PRICE: u8 = 0x72;

pub const VOLUME: u8 = 0x73;

pub const SEQUENCE: u8 = 0x74;

pub const CENTS: u8 = 0x75;

pub const SHIFT: u8 = 0x76;

pub const PREPAID: u8 = 0x77;

pub const STATUS: u8 = 0x78;

pub const TILL: u8 = 0x79;

pub const PRODUCT: u8 = 0x7A;

pub const METERED: u8 = 0x7B;

pub const RUNNING: u8 = 0x7C;

pub const PAYABLE: u8 = 0x7D;

pub const LOCKED: u8 = 0x7E;

pub const CLEARED: u8 = 0x7F;

pub const ADJUSTED: u8 = 0x85;
