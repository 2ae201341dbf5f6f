//! The well-formed parts of bytes that are not a load option.
#![tactic(auto, unfolding(crate::specs::Views::parts_of))]

ghost use Rattle.std.specs.Prelude.{◌≡◌, ◌+◌, ◌<◌, ◌^◌, [], All, MatchOption, None, Some, length};
ghost use Rattle.std.specs.Option.{ForSome};
ghost use Rattle.uefi_device_nodes.specs.Nodes.{IsInner};
ghost use Rattle.uefi_device_path.specs.LoadOptionParts.{parts_with};
ghost use Rattle.uefi_device_path.specs.PathLists.{ArePacked, ArePaths, paths_in};
ghost use Rattle.uefi_device_path.specs.Paths.{AreNodes, nodes_in};
ghost use Rattle.uefi_device_path.specs.PathTexts.{nodes_text};
ghost use Rattle.uefi_text.specs.Units.{IsNulTerminated, without_nul};
ghost use Rattle.uefi_text.specs.Views.{items_of};
ghost use Rattle.uefi_device_nodes.specs.NodeViews.{node_of};
ghost use Rattle.uefi_text.specs.Runs.{GivesEach};

use crate::errors::{LoadOptionCause, LoadOptionError};
use crate::node_iterator::DevicePathNodeIterator;
use crate::path_list::{DevicePaths, ListFault};
use crate::text::path_text::PathText;
use uefi_device_nodes::field_texts::forms::{AllowShortcuts, DisplayOnly};
use uefi_text::UnalignedSlice;

/// The well-formed parts of bytes that are not a load option, up to the first fault, and that
/// fault. A contract sees it as `parts_of` it.
///
/// ```rust
/// let bytes = b"\x01\0\0\0\x09\0a\0\0\0\x7f\xff\x04\0\x03\x1a\x05\0\x01";
/// let parts = LoadOption::read_parts(bytes).err().ok_or("no fault")?;
/// assert_eq!(rt; (parts.attributes(), parts.error().offset), (Some(1), 19));
/// assert_eq!(rt; parts.description_units().map(|it| it.len()), Some(2));
/// assert_eq!(rt; (parts.device_paths().count(), parts.node_iter().count()), (1, 1));
/// ```
#[derive(Clone, Copy)]
pub struct LoadOptionParts<'a> {
    attributes: Option<u32>,
    description: Option<UnalignedSlice<'a, u16>>,
    paths: &'a [u8],
    nodes: &'a [u8],
    error: LoadOptionError,
    pub ghost ends: { ForSome description (λ units. IsNulTerminated (items_of units)) },
    pub ghost packed: { ArePacked paths.now },
    pub ghost are_nodes: { AreNodes nodes.now },
}

impl<'a> LoadOptionParts<'a> {
    ghost use Rattle.uefi_device_path.specs.Views.{nodes_left, nodes_of, parts_of, paths_left, printed_path};

    /// Creates the parts of bytes that end within the header. There are none.
    pub(crate) fn without_header(len: usize) -> Self
        ensures { parts_of result ≡ parts_with None None [] []
            (record { cause = LoadOptionCause.TooShort; offset = len }) }
    {
        LoadOptionParts {
            attributes: None,
            description: None,
            paths: &[],
            nodes: &[],
            error: LoadOptionError {
                cause: LoadOptionCause::TooShort,
                offset: len,
            },
        }
    }

    /// Creates the parts of bytes whose description has no NUL: the attributes.
    pub(crate) fn without_description(attributes: u32, offset: usize) -> Self
        ensures { parts_of result ≡ parts_with (Some attributes) None [] []
            (record { cause = LoadOptionCause.DescriptionWithoutEnd; offset = offset }) }
    {
        LoadOptionParts {
            attributes: Some(attributes),
            description: None,
            paths: &[],
            nodes: &[],
            error: LoadOptionError {
                cause: LoadOptionCause::DescriptionWithoutEnd,
                offset,
            },
        }
    }

    /// Creates the parts of bytes without a file path list: the attributes and the description.
    pub(crate) fn without_list(
        attributes: u32,
        description: UnalignedSlice<'a, u16>,
        error: LoadOptionError,
    ) -> Self
        requires { IsNulTerminated (items_of description) }
        ensures { parts_of result ≡ parts_with (Some attributes)
            (Some (without_nul (items_of description.entry))) [] [] error }
    {
        LoadOptionParts {
            attributes: Some(attributes),
            description: Some(description),
            paths: &[],
            nodes: &[],
            error,
        }
    }

    /// Creates the parts before a fault in the file path list, which begins at the offset `start`.
    pub(crate) fn before(
        attributes: u32,
        description: UnalignedSlice<'a, u16>,
        start: usize,
        fault: ListFault<'a>,
    ) -> Self
        requires ends { IsNulTerminated (items_of description) }
        requires offset { start + fault.error.offset < 2 ^ 64 }
        ensures { parts_of result ≡ parts_with (Some attributes)
            (Some (without_nul (items_of description.entry)))
            (paths_in fault.entry.paths.now) (nodes_in fault.entry.nodes.now)
            (record {
              cause = LoadOptionCause.FilePathList fault.entry.error.cause;
              offset = start + fault.entry.error.offset;
            }) }
    {
        LoadOptionParts {
            attributes: Some(attributes),
            description: Some(description),
            paths: fault.paths,
            nodes: fault.nodes,
            error: LoadOptionError {
                cause: LoadOptionCause::FilePathList(fault.error.cause),
                offset: start + fault.error.offset,
            },
        }
    }

    /// Returns the first fault, with its offset.
    pub fn error(&self) -> LoadOptionError
        ensures { result ≡ (parts_of self.now).error }
    {
        self.error
    }

    /// Returns the attributes, if the bytes have the whole header.
    pub fn attributes(&self) -> Option<u32>
        ensures { result ≡ (parts_of self.now).attributes }
    {
        self.attributes
    }

    /// Returns the code units of the description and its NUL, if it has one. They may contain
    /// surrogates.
    pub fn description_units(&self) -> Option<UnalignedSlice<'a, u16>>
        ensures units { MatchOption result ((parts_of self.now).description ≡ None) (λ units.
            (parts_of self.now).description ≡ Some (without_nul (items_of units))) }
        ensures ends { ForSome result (λ units. IsNulTerminated (items_of units)) }
    {
        self.description
    }

    /// Returns an iterator over the whole device paths before the fault.
    pub fn device_paths(&self) -> DevicePaths<'a>
        ensures same { paths_left result ≡ (parts_of self.now).paths }
        ensures are_paths { ArePaths (paths_left result) }
        ensures bound { length (paths_left result) < 2 ^ 64 }
        ensures runs { GivesEach nodes_of paths_left result }
    {
        DevicePaths::of(self.paths)
    }

    /// Returns an iterator over the nodes before the fault, in the device path that contains it.
    pub fn node_iter(&self) -> DevicePathNodeIterator<'a>
        ensures same { nodes_left result ≡ (parts_of self.now).nodes }
        ensures inner { All IsInner (nodes_left result) }
        ensures bound { length (nodes_left result) < 2 ^ 64 }
        ensures runs { GivesEach node_of nodes_left result }
    {
        DevicePathNodeIterator::of(self.nodes)
    }

    /// Returns a value that prints these nodes, as
    /// [`DevicePath::display`](crate::DevicePath::display) prints a path.
    ///
    /// ```rust
    /// let bytes = b"\x01\0\0\0\x05\0a\0\0\0\x03\x1a\x05\0\x01";
    /// let parts = LoadOption::read_parts(bytes).err().ok_or("no fault")?;
    /// let text = parts.display_nodes(DisplayOnly(true), AllowShortcuts(true));
    /// assert_eq!(rt; format!(in rt.alloc(); "{text}")?.as_str(), "SD(0x1)");
    /// ```
    pub fn display_nodes(
        &self,
        display_only: DisplayOnly,
        allow_shortcuts: AllowShortcuts,
    ) -> PathText<'a>
        ensures { printed_path result
            ≡ nodes_text display_only.0 allow_shortcuts.0 (parts_of self.now).nodes }
    {
        PathText::of(self.nodes, display_only, allow_shortcuts)
    }
}
