//! Comparisons of device paths: which paths begin with others, which are short forms, and which
//! devices they name.
#![tactic(auto)]

ghost use Rattle.std.specs.Prelude.{◌≡◌, ◌↔◌, ◌++◌, ◌∷◌, [], IsTrue, List, MatchOption};
ghost use Rattle.uefi_device_nodes.specs.NodeViews.{node_of};
ghost use Rattle.uefi_device_nodes.specs.Nodes.{Node};
ghost use Rattle.uefi_device_path.specs.Views.{nodes_of};
ghost use Rattle.uefi_device_path.specs.Matching.{IsExpansion, Names, NameOnePartition, short_form, short_form_of};

use crate::device_path::DevicePath;
use uefi_device_nodes::DevicePathNode;
use uefi_device_nodes::media::HardDrive;
use uefi_device_nodes::node_table::layouts::media::{file_path, hard_drive};
use uefi_device_nodes::node_table::layouts::messaging::{uri, usb_class, usb_wwid};
use uefi_device_nodes::node_table::layouts::{MEDIA_TYPE, MESSAGING_TYPE};

/// The first node of a short-form device path. Such a path leaves out where the device is, and
/// firmware looks for the device (UEFI Specification 2.10, section 3.1.2).
#[derive(Clone, Copy, Debug, PartialEq, Eq)]
pub enum ShortForm {
    /// A partition, by its number and signature: `HD(..)`.
    HardDrive,
    /// A file, on any volume.
    File,
    /// A USB device, by its class.
    UsbClass,
    /// A USB device, by its serial number.
    UsbWwid,
    /// A URI, over any network interface.
    Uri,
}

/// Returns the short form of a path with this first node.
fn form_of(node: DevicePathNode<'_>) -> Option<ShortForm>
    ensures { result ≡ short_form_of (node_of node.entry) }
{
    match (node.device_type().0, node.sub_type().0) {
        (MEDIA_TYPE, hard_drive::SUB_TYPE) => Some(ShortForm::HardDrive),
        (MEDIA_TYPE, file_path::SUB_TYPE) => Some(ShortForm::File),
        (MESSAGING_TYPE, usb_class::SUB_TYPE) => Some(ShortForm::UsbClass),
        (MESSAGING_TYPE, usb_wwid::SUB_TYPE) => Some(ShortForm::UsbWwid),
        (MESSAGING_TYPE, uri::SUB_TYPE) => Some(ShortForm::Uri),
        _ => None,
    }
}

/// Returns whether two nodes name the same partition.
fn name_one_partition(node: DevicePathNode<'_>, other: DevicePathNode<'_>) -> bool
    ensures { IsTrue result ↔ NameOnePartition (node_of node.entry) (node_of other.entry) }
{
    let (Ok(drive), Ok(other)) = (HardDrive::from_node(node), HardDrive::from_node(other)) else {
        return false;
    };
    drive.partition_number() == other.partition_number()
        && drive.signature_type() == other.signature_type()
        && drive.partition_signature() == other.partition_signature()
}

/// Returns whether two nodes are equal.
fn are_equal(node: DevicePathNode<'_>, other: DevicePathNode<'_>) -> bool
    ensures { IsTrue result ↔ (node_of node.entry ≡ node_of other.entry) }
{
    node.as_bytes() == other.as_bytes()
}

/// Returns whether two paths have the same nodes.
fn have_same_nodes(path: DevicePath<'_>, other: DevicePath<'_>) -> bool
    ensures { IsTrue result ↔ (nodes_of path.entry ≡ nodes_of other.entry) }
{
    path.as_bytes() == other.as_bytes()
}

/// Returns whether the first node of a short form names the same device, file or resource as a
/// node.
fn is_named(first: DevicePathNode<'_>, node: DevicePathNode<'_>) -> bool
    ensures { IsTrue result ↔ Names (node_of first.entry) (node_of node.entry) }
{
    match form_of(first) {
        Some(ShortForm::HardDrive) => name_one_partition(first, node),
        Some(ShortForm::File | ShortForm::Uri) => are_equal(first, node),
        Some(ShortForm::UsbClass | ShortForm::UsbWwid) | None => false,
    }
}

impl<'a> DevicePath<'a> {
    /// Returns the first node and the path of the others, or `None` for a path without nodes.
    ///
    /// ```rust
    /// let path = DevicePathBuf::from_text(rt.alloc(), "PciRoot(0x0)/Pci(0x1F,0x2)")?;
    /// let (first, others) = path.as_device_path().split_first_node().ok_or("no node")?;
    /// assert_eq!(rt; first.device_type(), DeviceType::ACPI);
    /// assert_eq!(rt; format!(in rt.alloc(); "{others}")?.as_str(), "Pci(0x1F,0x2)");
    /// ```
    pub fn split_first_node(&self) -> Option<(DevicePathNode<'a>, DevicePath<'a>)>
        ensures { MatchOption result (nodes_of self.now ≡ [])
            (λ split. nodes_of self.now ≡ node_of split.0 ∷ nodes_of split.1) }
    {
        let (node, rest) = DevicePathNode::take_first(self.as_bytes());
        if node.is_end_entire() {
            return None;
        }
        Some((node, DevicePath::of_path(rest)))
    }

    /// Returns the path without the nodes of another at its start, or `None` if it does not begin
    /// with these nodes.
    ///
    /// ```rust
    /// let path = DevicePathBuf::from_text(rt.alloc(), "PciRoot(0x0)/Pci(0x1F,0x2)")?;
    /// let root = DevicePathBuf::from_text(rt.alloc(), "PciRoot(0x0)")?;
    /// let others = path.as_device_path().strip_prefix(root.as_device_path()).ok_or("another root")?;
    /// assert_eq!(rt; format!(in rt.alloc(); "{others}")?.as_str(), "Pci(0x1F,0x2)");
    /// assert_eq!(rt; root.as_device_path().strip_prefix(path.as_device_path()), None);
    /// ```
    pub fn strip_prefix(&self, prefix: DevicePath<'_>) -> Option<DevicePath<'a>>
        ensures { MatchOption result
            ((rest : List Node) → nodes_of self.now ≡ nodes_of prefix.entry ++ rest → ⊥)
            (λ rest. nodes_of self.now ≡ nodes_of prefix.entry ++ nodes_of rest) }
    {
        let front = prefix.as_bytes();
        match self.as_bytes().strip_prefix(&front[..front.len() - 4]) {
            Some(rest) => Some(DevicePath::of_path(rest)),
            None => None,
        }
    }

    /// Returns whether the path begins with the nodes of another.
    ///
    /// ```rust
    /// let path = DevicePathBuf::from_text(rt.alloc(), "PciRoot(0x0)/Pci(0x1F,0x2)")?;
    /// let root = DevicePathBuf::from_text(rt.alloc(), "PciRoot(0x0)")?;
    /// assert!(rt; path.as_device_path().starts_with(root.as_device_path()));
    /// assert!(rt; !root.as_device_path().starts_with(path.as_device_path()));
    /// ```
    pub fn starts_with(&self, prefix: DevicePath<'_>) -> bool
        ensures { IsTrue result ↔ ((rest : List Node) × (nodes_of self.now ≡ nodes_of prefix.entry ++ rest)) }
    {
        self.strip_prefix(prefix).is_some()
    }

    /// Returns the kind of short form of the path, by its first node, or `None` for any other path.
    ///
    /// ```rust
    /// let path = DevicePathBuf::from_text(rt.alloc(), r"\efi\a.efi")?;
    /// assert_eq!(rt; path.as_device_path().short_form(), Some(ShortForm::File));
    /// let path = DevicePathBuf::from_text(rt.alloc(), r"SD(0x1)/\efi\a.efi")?;
    /// assert_eq!(rt; path.as_device_path().short_form(), None);
    /// ```
    pub fn short_form(&self) -> Option<ShortForm>
        ensures { result ≡ short_form (nodes_of self.now) }
    {
        let (first, _) = self.split_first_node()?;
        form_of(first)
    }

    /// Returns whether this full path is an expansion of a short form: nodes that say where the
    /// device is, then a node that the first node of the short form names, and then the rest of the
    /// short form.
    ///
    /// A partition is named by its number, the type of its signature and its signature; a file and
    /// a URI by an equal node. No path is the expansion of a short form of a USB device, because
    /// its nodes don't say which class or serial number the device has.
    ///
    /// ```rust
    /// let short = DevicePathBuf::from_text(rt.alloc(), r"HD(1,MBR,0x76543210,0x3F,0x1000)/\a.efi")?;
    /// let mut full = DevicePathBuf::from_text(rt.alloc(), "PciRoot(0x0)/Pci(0x1F,0x2)")?;
    /// full.append(short.as_device_path())?;
    /// assert!(rt; full.as_device_path().is_expansion_of(short.as_device_path()));
    /// assert!(rt; !short.as_device_path().is_expansion_of(full.as_device_path()));
    /// ```
    pub fn is_expansion_of(&self, short: DevicePath<'_>) -> bool
        ensures { IsTrue result ↔ IsExpansion (nodes_of self.now) (nodes_of short.entry) }
    {
        let Some((first, tail)) = short.split_first_node() else {
            return false;
        };
        let mut rest = *self;
        'nodes: while let Some((node, after)) = rest.split_first_node() {
            if have_same_nodes(after, tail) && is_named(first, node) {
                return true;
            }
            rest = after;
        }
        false
    }
}
