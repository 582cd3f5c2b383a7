//! The token for a hold.

use report::Mac;

/// While it is out, the directory in force stays. It can be neither copied nor let go, only given back.
pub struct Hold {
    // The MAC of the node that granted it.
    pub(crate) mac: Mac,
}
