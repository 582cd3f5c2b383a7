//! A frame that holds a HELLO.

ghost use Rattle.std.specs.Prelude.{◌≡◌};
ghost use Rattle.hello_read.specs.Layout.{bytes_at};

use crate::Hello;

/// A frame that holds a HELLO, checked: vendor and UUID are parts of it.
#[derive(Clone, Copy)]
pub struct HelloFrame<'f> {
    pub frame: &'f [u8],
    pub hello: Hello<'f>,
    /// Where vendor and UUID stand in the frame.
    pub vendor_at: usize,
    pub uuid_at: usize,
    ghost vendor_part: { hello.vendor.now ≡ bytes_at vendor_at 32 frame.now },
    ghost uuid_part: { hello.uuid.now ≡ bytes_at uuid_at 16 frame.now },
}
