//! The kinds of nodes.
#![tactic(auto, unfolding(crate::specs::NodeViews::node_of))]

ghost use Rattle.std.specs.Prelude.{◌≡◌, ◌++◌, IfOk};
ghost use Rattle.std.specs.Result.{result_err};
ghost use Rattle.uefi_device_nodes.specs.NodeEnums.{IsNodeOf, acpi_kinds, bios_boot_spec_kinds, hardware_kinds, media_kinds, messaging_kinds, network_kinds, storage_kinds, refusal_among, enum_refusal};
ghost use Rattle.uefi_device_nodes.specs.NodeViews.{node_of};

use crate::errors::NodeConversionError;
use crate::media::FilePath;
use crate::node::{DevicePathNode, DeviceType};
use crate::node_table::layouts;
use crate::node_table::layouts::acpi::{adr, expanded, nvdimm};
use crate::node_table::layouts::bios_boot_spec::boot_specification;
use crate::node_table::layouts::hardware::{
    bmc, controller, hardware_vendor, memory_mapped, pccard, pci,
};
use crate::node_table::layouts::media::{
    cd_rom, file_path, firmware_file, firmware_volume, hard_drive, media_vendor, protocol,
    ram_disk, relative_offset_range,
};
use crate::node_table::layouts::messaging::{
    atapi, bluetooth, bluetooth_le, device_logical_unit, dns, emmc, fibre_channel,
    fibre_channel_ex, i2o, ieee1394, infiniband, ipv4, ipv6, iscsi, mac_address, messaging_vendor,
    nvdimm_namespace, nvme_namespace, nvme_of_namespace, rest_service, sas_ex, sata, scsi, sd,
    uart, ufs, uri, usb, usb_class, usb_wwid, vlan, wifi,
};
use crate::node_table::layouts::{
    ACPI_TYPE, BIOS_BOOT_SPEC_TYPE, HARDWARE_TYPE, MEDIA_TYPE, MESSAGING_TYPE,
};
use crate::typed_node::TypedNode;
use crate::{acpi, bios_boot_spec, hardware, media, messaging};

/// The view of a node, by its kind. The name of a variant is the type and the kind, as in the Rust crate
/// `uefi`.
#[derive(Clone, Copy)]
pub enum DevicePathNodeEnum<'a> {
    /// A device on a PCI bus.
    HardwarePci(hardware::Pci<'a>),
    /// A PC card.
    HardwarePccard(hardware::Pccard<'a>),
    /// A range of memory.
    HardwareMemoryMapped(hardware::MemoryMapped<'a>),
    /// A vendor-defined node, identified by a GUID.
    HardwareVendor(hardware::HardwareVendor<'a>),
    /// A controller.
    HardwareController(hardware::Controller<'a>),
    /// The host interface of a management controller.
    HardwareBmc(hardware::Bmc<'a>),
    /// A device that ACPI names by two numbers.
    AcpiAcpi(acpi::Acpi<'a>),
    /// A device that ACPI names by numbers or by strings.
    AcpiExpanded(acpi::Expanded<'a>),
    /// The outputs of a display adapter.
    AcpiAdr(acpi::Adr<'a>),
    /// A persistent memory module.
    AcpiNvdimm(acpi::Nvdimm<'a>),
    /// A drive on an ATA bus.
    MessagingAtapi(messaging::Atapi<'a>),
    /// A device on a SCSI bus.
    MessagingScsi(messaging::Scsi<'a>),
    /// A device on Fibre Channel.
    MessagingFibreChannel(messaging::FibreChannel<'a>),
    /// A FireWire device.
    MessagingIeee1394(messaging::Ieee1394<'a>),
    /// A device on a USB bus.
    MessagingUsb(messaging::Usb<'a>),
    /// A device on an I2O bus.
    MessagingI2o(messaging::I2o<'a>),
    /// A device on InfiniBand.
    MessagingInfiniband(messaging::Infiniband<'a>),
    /// A vendor-defined node, identified by a GUID.
    MessagingVendor(messaging::MessagingVendor<'a>),
    /// A network interface.
    MessagingMacAddress(messaging::MacAddress<'a>),
    /// An endpoint of a connection over IP version 4.
    MessagingIpv4(messaging::Ipv4<'a>),
    /// An endpoint of a connection over IP version 6.
    MessagingIpv6(messaging::Ipv6<'a>),
    /// A serial port.
    MessagingUart(messaging::Uart<'a>),
    /// All USB devices of a class.
    MessagingUsbClass(messaging::UsbClass<'a>),
    /// A USB device, identified by its serial number.
    MessagingUsbWwid(messaging::UsbWwid<'a>),
    /// A logical unit of the device before it.
    MessagingDeviceLogicalUnit(messaging::DeviceLogicalUnit<'a>),
    /// A device on a SATA port.
    MessagingSata(messaging::Sata<'a>),
    /// An iSCSI target.
    MessagingIscsi(messaging::Iscsi<'a>),
    /// A virtual network.
    MessagingVlan(messaging::Vlan<'a>),
    /// A device on Fibre Channel, with its numbers as bytes in the order of the bus.
    MessagingFibreChannelEx(messaging::FibreChannelEx<'a>),
    /// A device on SAS.
    MessagingSasEx(messaging::SasEx<'a>),
    /// A namespace of NVM Express.
    MessagingNvmeNamespace(messaging::NvmeNamespace<'a>),
    /// A resource that a URI identifies.
    MessagingUri(messaging::Uri<'a>),
    /// A device on UFS.
    MessagingUfs(messaging::Ufs<'a>),
    /// An SD card.
    MessagingSd(messaging::Sd<'a>),
    /// A Bluetooth device.
    MessagingBluetooth(messaging::Bluetooth<'a>),
    /// A wireless network.
    MessagingWifi(messaging::Wifi<'a>),
    /// An eMMC card.
    MessagingEmmc(messaging::Emmc<'a>),
    /// A Bluetooth Low Energy device.
    MessagingBluetoothLe(messaging::BluetoothLe<'a>),
    /// The addresses of name servers.
    MessagingDns(messaging::Dns<'a>),
    /// A namespace of a persistent memory module.
    MessagingNvdimmNamespace(messaging::NvdimmNamespace<'a>),
    /// A REST service.
    MessagingRestService(messaging::RestService<'a>),
    /// A namespace of NVM Express over a network.
    MessagingNvmeOfNamespace(messaging::NvmeOfNamespace<'a>),
    /// A partition of a hard drive.
    MediaHardDrive(media::HardDrive<'a>),
    /// A boot entry of a CD-ROM.
    MediaCdRom(media::CdRom<'a>),
    /// A vendor-defined node, identified by a GUID.
    MediaVendor(media::MediaVendor<'a>),
    /// A file.
    MediaFilePath(FilePath<'a>),
    /// A protocol of the firmware.
    MediaProtocol(media::Protocol<'a>),
    /// A file of a firmware volume.
    MediaPiwgFirmwareFile(media::FirmwareFile<'a>),
    /// A firmware volume.
    MediaPiwgFirmwareVolume(media::FirmwareVolume<'a>),
    /// A range of bytes of the medium before it.
    MediaRelativeOffsetRange(media::RelativeOffsetRange<'a>),
    /// A RAM disk.
    MediaRamDisk(media::RamDisk<'a>),
    /// A device that a legacy BIOS can boot.
    BiosBootSpecBootSpecification(bios_boot_spec::BootSpecification<'a>),
}

impl<'a> DevicePathNodeEnum<'a> {
    /// Returns the view of a node of type Hardware.
    fn hardware_node(node: DevicePathNode<'a>) -> Result<Self, NodeConversionError>
        requires { (node_of node).device_type ≡ HARDWARE_TYPE }
        ensures ok { IfOk result (λ view. IsNodeOf view (node_of node.entry)) }
        ensures refusal { result_err result ≡ refusal_among hardware_kinds (node_of node.entry) }
    {
        Ok(match node.sub_type().0 {
            pci::SUB_TYPE => Self::HardwarePci(TypedNode::from_node(node)?),
            pccard::SUB_TYPE => Self::HardwarePccard(TypedNode::from_node(node)?),
            memory_mapped::SUB_TYPE => Self::HardwareMemoryMapped(TypedNode::from_node(node)?),
            hardware_vendor::SUB_TYPE => Self::HardwareVendor(TypedNode::from_node(node)?),
            controller::SUB_TYPE => Self::HardwareController(TypedNode::from_node(node)?),
            bmc::SUB_TYPE => Self::HardwareBmc(TypedNode::from_node(node)?),
            _ => return Err(NodeConversionError::UnsupportedType),
        })
    }

    /// Returns the view of a node of type ACPI.
    fn acpi_node(node: DevicePathNode<'a>) -> Result<Self, NodeConversionError>
        requires { (node_of node).device_type ≡ ACPI_TYPE }
        ensures ok { IfOk result (λ view. IsNodeOf view (node_of node.entry)) }
        ensures refusal { result_err result ≡ refusal_among acpi_kinds (node_of node.entry) }
    {
        Ok(match node.sub_type().0 {
            layouts::acpi::acpi::SUB_TYPE => Self::AcpiAcpi(TypedNode::from_node(node)?),
            expanded::SUB_TYPE => Self::AcpiExpanded(TypedNode::from_node(node)?),
            adr::SUB_TYPE => Self::AcpiAdr(TypedNode::from_node(node)?),
            nvdimm::SUB_TYPE => Self::AcpiNvdimm(TypedNode::from_node(node)?),
            _ => return Err(NodeConversionError::UnsupportedType),
        })
    }

    /// Returns the view of a node of type Messaging.
    fn messaging_node(node: DevicePathNode<'a>) -> Result<Self, NodeConversionError>
        requires { (node_of node).device_type ≡ MESSAGING_TYPE }
        ensures ok { IfOk result (λ view. IsNodeOf view (node_of node.entry)) }
        ensures refusal { result_err result ≡ refusal_among messaging_kinds (node_of node.entry) }
    {
        Ok(match node.sub_type().0 {
            ieee1394::SUB_TYPE => Self::MessagingIeee1394(TypedNode::from_node(node)?),
            usb::SUB_TYPE => Self::MessagingUsb(TypedNode::from_node(node)?),
            i2o::SUB_TYPE => Self::MessagingI2o(TypedNode::from_node(node)?),
            messaging_vendor::SUB_TYPE => Self::MessagingVendor(TypedNode::from_node(node)?),
            uart::SUB_TYPE => Self::MessagingUart(TypedNode::from_node(node)?),
            usb_class::SUB_TYPE => Self::MessagingUsbClass(TypedNode::from_node(node)?),
            usb_wwid::SUB_TYPE => Self::MessagingUsbWwid(TypedNode::from_node(node)?),
            _ => return Self::storage_or_network_node(node),
        })
    }

    /// Returns the view of a node of type Messaging, for storage and networks.
    fn storage_or_network_node(node: DevicePathNode<'a>) -> Result<Self, NodeConversionError>
        requires { (node_of node).device_type ≡ MESSAGING_TYPE }
        ensures ok { IfOk result (λ view. IsNodeOf view (node_of node.entry)) }
        ensures refusal { result_err result
            ≡ refusal_among (storage_kinds ++ network_kinds) (node_of node.entry) }
    {
        Ok(match node.sub_type().0 {
            atapi::SUB_TYPE => Self::MessagingAtapi(TypedNode::from_node(node)?),
            scsi::SUB_TYPE => Self::MessagingScsi(TypedNode::from_node(node)?),
            fibre_channel::SUB_TYPE => Self::MessagingFibreChannel(TypedNode::from_node(node)?),
            device_logical_unit::SUB_TYPE => Self::MessagingDeviceLogicalUnit(TypedNode::from_node(
                node,
            )?),
            sata::SUB_TYPE => Self::MessagingSata(TypedNode::from_node(node)?),
            fibre_channel_ex::SUB_TYPE => Self::MessagingFibreChannelEx(TypedNode::from_node(
                node,
            )?),
            sas_ex::SUB_TYPE => Self::MessagingSasEx(TypedNode::from_node(node)?),
            nvme_namespace::SUB_TYPE => Self::MessagingNvmeNamespace(TypedNode::from_node(node)?),
            ufs::SUB_TYPE => Self::MessagingUfs(TypedNode::from_node(node)?),
            sd::SUB_TYPE => Self::MessagingSd(TypedNode::from_node(node)?),
            emmc::SUB_TYPE => Self::MessagingEmmc(TypedNode::from_node(node)?),
            nvdimm_namespace::SUB_TYPE => Self::MessagingNvdimmNamespace(TypedNode::from_node(
                node,
            )?),
            _ => return Self::network_node(node),
        })
    }

    /// Returns the view of a node of type Messaging, for networks and what is reached over them.
    fn network_node(node: DevicePathNode<'a>) -> Result<Self, NodeConversionError>
        requires { (node_of node).device_type ≡ MESSAGING_TYPE }
        ensures ok { IfOk result (λ view. IsNodeOf view (node_of node.entry)) }
        ensures refusal { result_err result ≡ refusal_among network_kinds (node_of node.entry) }
    {
        Ok(match node.sub_type().0 {
            infiniband::SUB_TYPE => Self::MessagingInfiniband(TypedNode::from_node(node)?),
            mac_address::SUB_TYPE => Self::MessagingMacAddress(TypedNode::from_node(node)?),
            ipv4::SUB_TYPE => Self::MessagingIpv4(TypedNode::from_node(node)?),
            ipv6::SUB_TYPE => Self::MessagingIpv6(TypedNode::from_node(node)?),
            iscsi::SUB_TYPE => Self::MessagingIscsi(TypedNode::from_node(node)?),
            vlan::SUB_TYPE => Self::MessagingVlan(TypedNode::from_node(node)?),
            uri::SUB_TYPE => Self::MessagingUri(TypedNode::from_node(node)?),
            bluetooth::SUB_TYPE => Self::MessagingBluetooth(TypedNode::from_node(node)?),
            wifi::SUB_TYPE => Self::MessagingWifi(TypedNode::from_node(node)?),
            bluetooth_le::SUB_TYPE => Self::MessagingBluetoothLe(TypedNode::from_node(node)?),
            dns::SUB_TYPE => Self::MessagingDns(TypedNode::from_node(node)?),
            rest_service::SUB_TYPE => Self::MessagingRestService(TypedNode::from_node(node)?),
            nvme_of_namespace::SUB_TYPE => Self::MessagingNvmeOfNamespace(TypedNode::from_node(
                node,
            )?),
            _ => return Err(NodeConversionError::UnsupportedType),
        })
    }

    /// Returns the view of a node of type Media.
    fn media_node(node: DevicePathNode<'a>) -> Result<Self, NodeConversionError>
        requires { (node_of node).device_type ≡ MEDIA_TYPE }
        ensures ok { IfOk result (λ view. IsNodeOf view (node_of node.entry)) }
        ensures refusal { result_err result ≡ enum_refusal (node_of node.entry) }
    {
        Ok(match node.sub_type().0 {
            hard_drive::SUB_TYPE => Self::MediaHardDrive(TypedNode::from_node(node)?),
            cd_rom::SUB_TYPE => Self::MediaCdRom(TypedNode::from_node(node)?),
            media_vendor::SUB_TYPE => Self::MediaVendor(TypedNode::from_node(node)?),
            file_path::SUB_TYPE => Self::MediaFilePath(FilePath::from_node(node)?),
            protocol::SUB_TYPE => Self::MediaProtocol(TypedNode::from_node(node)?),
            firmware_file::SUB_TYPE => Self::MediaPiwgFirmwareFile(TypedNode::from_node(node)?),
            firmware_volume::SUB_TYPE => Self::MediaPiwgFirmwareVolume(TypedNode::from_node(node)?),
            relative_offset_range::SUB_TYPE => Self::MediaRelativeOffsetRange(TypedNode::from_node(
                node,
            )?),
            ram_disk::SUB_TYPE => Self::MediaRamDisk(TypedNode::from_node(node)?),
            _ => return Err(NodeConversionError::UnsupportedType),
        })
    }

    /// Returns the view of a node of type BIOS Boot Specification.
    fn bios_boot_spec_node(node: DevicePathNode<'a>) -> Result<Self, NodeConversionError>
        requires { (node_of node).device_type ≡ BIOS_BOOT_SPEC_TYPE }
        ensures ok { IfOk result (λ view. IsNodeOf view (node_of node.entry)) }
        ensures refusal { result_err result ≡ refusal_among bios_boot_spec_kinds (node_of node.entry) }
    {
        Ok(match node.sub_type().0 {
            boot_specification::SUB_TYPE => Self::BiosBootSpecBootSpecification(
                TypedNode::from_node(node)?,
            ),
            _ => return Err(NodeConversionError::UnsupportedType),
        })
    }
}

impl<'a> DevicePathNode<'a> {
    /// Returns the view of the node. Fails with `UnsupportedType` if there is no view for its type and
    /// sub-type, and otherwise with `InvalidLength` if no node of its kind has data of this length.
    ///
    /// ```rust
    /// let (node, _) = DevicePathNode::split_first(&[1, 1, 6, 0, 2, 0x1f])?;
    /// let view = node.as_enum();
    /// assert!(rt; matches!(view, Ok(DevicePathNodeEnum::HardwarePci(pci)) if pci.device() == 0x1f));
    /// let (short, _) = DevicePathNode::split_first(&[1, 1, 5, 0, 2])?;
    /// assert_eq!(rt; short.as_enum().err(), Some(NodeConversionError::InvalidLength));
    /// ```
    pub fn as_enum(&self) -> Result<DevicePathNodeEnum<'a>, NodeConversionError>
        ensures ok { IfOk result (λ view. IsNodeOf view (node_of self.now)) }
        ensures refusal { result_err result ≡ enum_refusal (node_of self.now) }
    {
        match self.device_type() {
            DeviceType::HARDWARE => DevicePathNodeEnum::hardware_node(*self),
            DeviceType::ACPI => DevicePathNodeEnum::acpi_node(*self),
            DeviceType::MESSAGING => DevicePathNodeEnum::messaging_node(*self),
            DeviceType::MEDIA => DevicePathNodeEnum::media_node(*self),
            DeviceType::BIOS_BOOT_SPEC => DevicePathNodeEnum::bios_boot_spec_node(*self),
            _ => Err(NodeConversionError::UnsupportedType),
        }
    }
}

/// Converts a node as [`DevicePathNode::as_enum`] does.
impl<'a> TryFrom<DevicePathNode<'a>> for DevicePathNodeEnum<'a> {
    type Error = NodeConversionError;

    ghost try_from_gives = { λ node result. IfOk result (λ view. IsNodeOf view (node_of node))
        × (result_err result ≡ enum_refusal (node_of node)) };

    fn try_from(node: DevicePathNode<'a>) -> Result<Self, NodeConversionError> {
        node.as_enum()
    }
}
