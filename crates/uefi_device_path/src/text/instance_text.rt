//! Instances of device paths as people read them.
#![tactic(auto, unfolding(crate::specs::Views::instance_nodes))]

ghost use Rattle.std.specs.Prelude.{◌≡◌, ◌≤◌, ◌↔◌, IfErr, IfOk, IsErr, length, Some, false};
ghost use Rattle.uefi_device_path.specs.PathTexts.{nodes_text};
ghost use Rattle.uefi_text.specs.UnalignedCStr16.{with_prefix};
ghost use Rattle.uefi_text.specs.UnitTexts.{places_needed, utf16_units, written_len};
ghost use Rattle.uefi_text.specs.Units.{nul_terminated};
ghost use Rattle.uefi_device_path.specs.Views.{instance_nodes, printed_path};

use crate::instance::DevicePathInstance;
use crate::text::path_text::PathText;
use std::fmt;
use uefi_device_nodes::{AllowShortcuts, DisplayOnly};
use uefi_text::text_sink::print;
use uefi_text::unit_sink::{BufferTooSmall, write_units};

impl<'a> DevicePathInstance<'a> {
    /// Returns a value that prints the instance, for a `{}` of a format (UEFI Specification 2.10,
    /// section 10.6.1): the texts of its nodes, which [`DevicePathNode::display`] gives, with a
    /// slash between each two. Does not allocate.
    ///
    /// ```rust
    /// let path = DevicePathBuf::from_text(rt.alloc(), "CDROM(0x1,0x2D,0x800),SD(0x1)")?;
    /// let instance = path.as_device_path().instance_iter().next().ok_or("no instance")?;
    /// let text = instance.display(DisplayOnly(true), AllowShortcuts(true));
    /// assert_eq!(rt; format!(in rt.alloc(); "{text}")?.as_str(), "CDROM(0x1)");
    /// ```
    pub fn display(
        &self,
        display_only: DisplayOnly,
        allow_shortcuts: AllowShortcuts,
    ) -> PathText<'a>
        ensures { printed_path result
            ≡ nodes_text display_only.0 allow_shortcuts.0 (instance_nodes self.now) }
    {
        PathText::of(self.bytes, display_only, allow_shortcuts)
    }

    /// Writes the text that [`DevicePathInstance::display`] prints to the start of a buffer, as
    /// UTF-16 with a NUL, and returns its length, as [`DevicePath::write_text`](crate::DevicePath)
    /// does.
    ///
    /// ```rust
    /// let path = DevicePathBuf::from_text(rt.alloc(), "SD(0x1),SD(0x2)")?;
    /// let instance = path.as_device_path().instance_iter().next().ok_or("no instance")?;
    /// let (form, shortcuts) = (DisplayOnly(true), AllowShortcuts(true));
    /// let mut buffer = [0; 8];
    /// assert_eq!(rt; instance.write_text(&mut buffer, form, shortcuts), Ok(7));
    /// assert_eq!(rt; buffer, [0x53, 0x44, 0x28, 0x30, 0x78, 0x31, 0x29, 0]);
    /// ```
    pub fn write_text(
        &self,
        buffer: &mut [u16],
        display_only: DisplayOnly,
        allow_shortcuts: AllowShortcuts,
    ) -> Result<usize, BufferTooSmall>
        ensures len { result ≡ written_len
            (utf16_units (nodes_text display_only.0 allow_shortcuts.0 (instance_nodes self.now))) buffer.old }
        ensures buffer { buffer.new ≡ with_prefix (nul_terminated
            (utf16_units (nodes_text display_only.0 allow_shortcuts.0
            (instance_nodes self.now)))) buffer.old }
    {
        write_units(buffer, &self.display(display_only, allow_shortcuts))
    }

    /// Writes the text that [`DevicePathInstance::display`] prints to the start of a buffer, and
    /// borrows it from there with its NUL.
    ///
    /// ```rust
    /// let path = DevicePathBuf::from_text(rt.alloc(), "SD(0x1),SD(0x2)")?;
    /// let instance = path.as_device_path().instance_iter().next().ok_or("no instance")?;
    /// let mut buffer = [0; 64];
    /// let text = instance.text_in_buf(&mut buffer, DisplayOnly(true), AllowShortcuts(true))?;
    /// assert_eq!(rt; text, [0x53, 0x44, 0x28, 0x30, 0x78, 0x31, 0x29, 0].as_slice());
    /// ```
    pub fn text_in_buf<'b>(
        &self,
        buf: &'b mut [u16],
        display_only: DisplayOnly,
        allow_shortcuts: AllowShortcuts,
    ) -> Result<&'b [u16], BufferTooSmall>
        ensures ok { IfOk result (λ units. units.now ≡ nul_terminated
            (utf16_units (nodes_text display_only.0 allow_shortcuts.0 (instance_nodes self.now)))) }
        ensures refused { IsErr result ↔ (length buf.old
            ≤ length (utf16_units (nodes_text display_only.0 allow_shortcuts.0 (instance_nodes self.now)))) }
        ensures needs { IfErr result (λ error. error.0 ≡ places_needed
            (utf16_units (nodes_text display_only.0 allow_shortcuts.0 (instance_nodes self.now)))) }
    {
        let len = self.write_text(buf, display_only, allow_shortcuts)?;
        Ok(&buf[..len + 1])
    }
}

/// Prints the text that can be read back, without short names.
impl<'a> fmt::Display for DevicePathInstance<'a> {
    ghost output = { λ instance. Some (nodes_text false false (instance_nodes instance)) };

    fn fmt<W: fmt::Write>(&self, f: &mut fmt::Formatter<W>) -> fmt::Result {
        print(f, &self.display(DisplayOnly(false), AllowShortcuts(false)))
    }
}
