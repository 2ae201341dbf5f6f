//! Nodes of type Messaging that name networks, and servers that are reached over them (UEFI Specification
//! 2.10, section 10.3.4).
#![tactic(auto)]

ghost use Rattle.std.specs.Prelude.{◌≡◌, ◌+◌, ◌*◌, ◌/◌, ◌<◌, ◌≤◌, ◌↔◌, IfSome, IsSome, length, slice_range, ◌∷◌, [], ◌++◌, unwrap_or};
ghost use Rattle.uefi_device_nodes.specs.TypedNodes.{bytes_from, bytes_in, end_of, number_in};
ghost use Rattle.uefi_device_nodes.specs.NodeViews.{data_of};
ghost use Rattle.uefi_device_nodes.specs.declared.node_table.layouts.messaging.dns.TheConstants as dns;
ghost use Rattle.uefi_device_nodes.specs.declared.node_table.layouts.messaging.ipv4.TheConstants as ipv4;
ghost use Rattle.uefi_device_nodes.specs.declared.node_table.layouts.messaging.ipv6.TheConstants as ipv6;
ghost use Rattle.uefi_device_nodes.specs.declared.node_table.layouts.messaging.mac_address.TheConstants as mac_address;
ghost use Rattle.uefi_device_nodes.specs.declared.node_table.layouts.messaging.rest_service.TheConstants as rest_service;
ghost use Rattle.uefi_device_nodes.specs.declared.node_table.layouts.messaging.uri.TheConstants as uri;
ghost use Rattle.uefi_device_nodes.specs.declared.node_table.layouts.messaging.vlan.TheConstants as vlan;
ghost use Rattle.uefi_device_nodes.specs.NodeFields.{bytes, number};

use crate::field_texts::guid::Guid;
use crate::node::DeviceSubType;
use crate::node_table::layouts::MESSAGING_TYPE;
use crate::node_table::layouts::messaging::{
    dns, ipv4, ipv6, mac_address, rest_service, uri, vlan,
};
use crate::typed_node::TypedNode;

/// Sub-types of the type [`DeviceType::MESSAGING`](crate::DeviceType).
impl DeviceSubType {
    /// A network interface.
    pub const MESSAGING_MAC_ADDRESS: DeviceSubType = DeviceSubType(mac_address::SUB_TYPE);

    /// A connection over IP version 4.
    pub const MESSAGING_IPV4: DeviceSubType = DeviceSubType(ipv4::SUB_TYPE);

    /// A connection over IP version 6.
    pub const MESSAGING_IPV6: DeviceSubType = DeviceSubType(ipv6::SUB_TYPE);

    /// A virtual network.
    pub const MESSAGING_VLAN: DeviceSubType = DeviceSubType(vlan::SUB_TYPE);

    /// A URI.
    pub const MESSAGING_URI: DeviceSubType = DeviceSubType(uri::SUB_TYPE);

    /// The addresses of name servers.
    pub const MESSAGING_DNS: DeviceSubType = DeviceSubType(dns::SUB_TYPE);

    /// A REST service.
    pub const MESSAGING_REST_SERVICE: DeviceSubType = DeviceSubType(rest_service::SUB_TYPE);
}

/// A network interface.
///
/// ```rust
/// let bytes = b"\x03\x0b\x25\0RT\0\x12\x34V\0\0\0\0\0\0\0\0\0\0\0\0\0\0\0\0\0\0\0\0\0\0\0\0\0\0\x01";
/// let (node, _) = DevicePathNode::split_first(bytes)?;
/// let card = messaging::MacAddress::from_node(node)?;
/// assert_eq!(rt; (card.mac_address()[0], card.mac_address()[5]), (0x52, 0x56));
/// assert_eq!(rt; card.interface_type(), 1);
/// ```
pub type MacAddress<'a> = TypedNode<
    'a,
    MESSAGING_TYPE,
    { mac_address::SUB_TYPE },
    { mac_address::LEAST },
>;

impl<'a> MacAddress<'a> {
    /// Returns the address, padded with zeros.
    pub fn mac_address(&self) -> [u8; 32]
        ensures { result ≡ bytes_in mac_address.MAC_ADDRESS (data_of self.now) }
    {
        self.bytes(mac_address::MAC_ADDRESS)
    }

    /// Returns the type of the interface (RFC 3232).
    pub fn interface_type(&self) -> u8
        ensures { result ≡ number_in mac_address.INTERFACE_TYPE (data_of self.now) }
    {
        self.number(mac_address::INTERFACE_TYPE)
    }
}

/// An endpoint of a connection over IP version 4.
///
/// ```rust
/// let bytes = b"\x03\x0c\x1b\0\x0a\0\0\x07\x0a\0\0\x01\0\0P\0\x06\0\x01\x0a\0\0\x02\xff\0\0\0";
/// let (node, _) = DevicePathNode::split_first(bytes)?;
/// let ip = messaging::Ipv4::from_node(node)?;
/// assert_eq!(rt; (ip.local_ip_address(), ip.remote_ip_address()), ([10, 0, 0, 7], [10, 0, 0, 1]));
/// assert_eq!(rt; (ip.local_port(), ip.remote_port(), ip.protocol(), ip.ip_address_origin()), (0, 80, 6, 1));
/// assert_eq!(rt; (ip.gateway_ip_address(), ip.subnet_mask()), (Some([10, 0, 0, 2]), Some([255, 0, 0, 0])));
/// ```
pub type Ipv4<'a> = TypedNode<'a, MESSAGING_TYPE, { ipv4::SUB_TYPE }, { ipv4::LEAST }>;

impl<'a> Ipv4<'a> {
    /// Returns the local address.
    pub fn local_ip_address(&self) -> [u8; 4]
        ensures { result ≡ bytes_in ipv4.LOCAL_IP_ADDRESS (data_of self.now) }
    {
        self.bytes(ipv4::LOCAL_IP_ADDRESS)
    }

    /// Returns the remote address.
    pub fn remote_ip_address(&self) -> [u8; 4]
        ensures { result ≡ bytes_in ipv4.REMOTE_IP_ADDRESS (data_of self.now) }
    {
        self.bytes(ipv4::REMOTE_IP_ADDRESS)
    }

    /// Returns the local port.
    pub fn local_port(&self) -> u16
        ensures { result ≡ number_in ipv4.LOCAL_PORT (data_of self.now) }
    {
        self.number(ipv4::LOCAL_PORT)
    }

    /// Returns the remote port.
    pub fn remote_port(&self) -> u16
        ensures { result ≡ number_in ipv4.REMOTE_PORT (data_of self.now) }
    {
        self.number(ipv4::REMOTE_PORT)
    }

    /// Returns the number of the protocol over IP, such as UDP or TCP.
    pub fn protocol(&self) -> u16
        ensures { result ≡ number_in ipv4.PROTOCOL (data_of self.now) }
    {
        self.number(ipv4::PROTOCOL)
    }

    /// Returns the origin of the local address; 0 is DHCP.
    pub fn ip_address_origin(&self) -> u8
        ensures { result ≡ number_in ipv4.IP_ADDRESS_ORIGIN (data_of self.now) }
    {
        self.number(ipv4::IP_ADDRESS_ORIGIN)
    }

    /// Returns the address of the gateway, or `None` if the node ends before the end of this field. A node
    /// of 19 bytes, from before the standard had the field, does not contain it.
    pub fn gateway_ip_address(&self) -> Option<[u8; 4]>
        ensures some { IsSome result ↔ (end_of ipv4.GATEWAY_IP_ADDRESS ≤ length (data_of self.now)) }
        ensures bytes { IfSome result (λ bytes. bytes ≡ bytes_in ipv4.GATEWAY_IP_ADDRESS (data_of self.now)) }
    {
        self.later_bytes(ipv4::GATEWAY_IP_ADDRESS)
    }

    /// Returns the mask of the subnet, or `None` if the node ends before the end of this field, as for
    /// [`Ipv4::gateway_ip_address`].
    pub fn subnet_mask(&self) -> Option<[u8; 4]>
        ensures some { IsSome result ↔ (end_of ipv4.SUBNET_MASK ≤ length (data_of self.now)) }
        ensures bytes { IfSome result (λ bytes. bytes ≡ bytes_in ipv4.SUBNET_MASK (data_of self.now)) }
    {
        self.later_bytes(ipv4::SUBNET_MASK)
    }
}

/// An endpoint of a connection over IP version 6.
///
/// ```rust
/// let bytes = b"\x03\x0d\x3c\0aaaaaaaaaaaaaaaabbbbbbbbbbbbbbbb\0\0P\0\x06\0\x02\x40\0\0\0\0\0\0\0\
///     \0\0\0\0\0\0\0\0\0";
/// let ip = messaging::Ipv6::from_node(DevicePathNode::split_first(bytes)?.0)?;
/// assert_eq!(rt; (ip.local_ip_address(), ip.remote_ip_address()), ([b'a'; 16], [b'b'; 16]));
/// assert_eq!(rt; (ip.local_port(), ip.remote_port(), ip.protocol(), ip.ip_address_origin()), (0, 80, 6, 2));
/// assert_eq!(rt; (ip.prefix_length(), ip.gateway_ip_address()), (64, [0; 16]));
/// ```
pub type Ipv6<'a> = TypedNode<'a, MESSAGING_TYPE, { ipv6::SUB_TYPE }, { ipv6::LEAST }>;

impl<'a> Ipv6<'a> {
    /// Returns the local address.
    pub fn local_ip_address(&self) -> [u8; 16]
        ensures { result ≡ bytes_in ipv6.LOCAL_IP_ADDRESS (data_of self.now) }
    {
        self.bytes(ipv6::LOCAL_IP_ADDRESS)
    }

    /// Returns the remote address.
    pub fn remote_ip_address(&self) -> [u8; 16]
        ensures { result ≡ bytes_in ipv6.REMOTE_IP_ADDRESS (data_of self.now) }
    {
        self.bytes(ipv6::REMOTE_IP_ADDRESS)
    }

    /// Returns the local port.
    pub fn local_port(&self) -> u16
        ensures { result ≡ number_in ipv6.LOCAL_PORT (data_of self.now) }
    {
        self.number(ipv6::LOCAL_PORT)
    }

    /// Returns the remote port.
    pub fn remote_port(&self) -> u16
        ensures { result ≡ number_in ipv6.REMOTE_PORT (data_of self.now) }
    {
        self.number(ipv6::REMOTE_PORT)
    }

    /// Returns the number of the protocol over IP, such as UDP or TCP.
    pub fn protocol(&self) -> u16
        ensures { result ≡ number_in ipv6.PROTOCOL (data_of self.now) }
    {
        self.number(ipv6::PROTOCOL)
    }

    /// Returns the origin of the local address: 0 is manual, 1 stateless and 2 stateful autoconfiguration.
    pub fn ip_address_origin(&self) -> u8
        ensures { result ≡ number_in ipv6.IP_ADDRESS_ORIGIN (data_of self.now) }
    {
        self.number(ipv6::IP_ADDRESS_ORIGIN)
    }

    /// Returns the number of bits of the prefix.
    pub fn prefix_length(&self) -> u8
        ensures { result ≡ number_in ipv6.PREFIX_LENGTH (data_of self.now) }
    {
        self.number(ipv6::PREFIX_LENGTH)
    }

    /// Returns the address of the gateway.
    pub fn gateway_ip_address(&self) -> [u8; 16]
        ensures { result ≡ bytes_in ipv6.GATEWAY_IP_ADDRESS (data_of self.now) }
    {
        self.bytes(ipv6::GATEWAY_IP_ADDRESS)
    }
}

/// A virtual network.
///
/// ```rust
/// let (node, _) = DevicePathNode::split_first(&[3, 0x14, 6, 0, 7, 0])?;
/// let network = messaging::Vlan::from_node(node)?;
/// assert_eq!(rt; network.vlan_id(), 7);
/// ```
pub type Vlan<'a> = TypedNode<'a, MESSAGING_TYPE, { vlan::SUB_TYPE }, { vlan::LEAST }>;

impl<'a> Vlan<'a> {
    /// Returns the number of the network, from 0 to 4094.
    pub fn vlan_id(&self) -> u16
        ensures { result ≡ number_in vlan.VLAN_ID (data_of self.now) }
    {
        self.number(vlan::VLAN_ID)
    }
}

/// A resource that a URI identifies.
///
/// ```rust
/// let (node, _) = DevicePathNode::split_first(b"\x03\x18\x12\0http://a/b.efi")?;
/// let uri = messaging::Uri::from_node(node)?;
/// assert_eq!(rt; uri.value(), b"http://a/b.efi".as_slice());
/// ```
pub type Uri<'a> = TypedNode<'a, MESSAGING_TYPE, { uri::SUB_TYPE }, { uri::LEAST }>;

impl<'a> Uri<'a> {
    /// Returns the bytes of the URI.
    pub fn value(&self) -> &'a [u8]
        ensures { result.now ≡ bytes_from uri.VALUE (data_of self.now) }
    {
        self.tail(uri::VALUE)
    }
}

/// The addresses of name servers.
///
/// ```rust
/// let bytes = b"\x03\x1f\x15\0\0\x09\x09\x09\x09\0\0\0\0\0\0\0\0\0\0\0\0";
/// let (node, _) = DevicePathNode::split_first(bytes)?;
/// let servers = messaging::Dns::from_node(node)?;
/// assert_eq!(rt; (servers.address_type(), servers.address_count()), (0, 1));
/// assert_eq!(rt; servers.address(0).map(|it| it[0]), Some(9));
/// assert_eq!(rt; servers.address(1), None);
/// ```
pub type Dns<'a> = TypedNode<'a, MESSAGING_TYPE, { dns::SUB_TYPE }, { dns::LEAST }>;

impl<'a> Dns<'a> {
    /// Returns the type of the addresses: 0 is IP version 4, 1 is version 6.
    pub fn address_type(&self) -> u8
        ensures { result ≡ number_in dns.ADDRESS_TYPE (data_of self.now) }
    {
        self.number(dns::ADDRESS_TYPE)
    }

    /// Returns the number of addresses. Bytes after the last whole address are ignored.
    pub fn address_count(&self) -> usize
        ensures { result ≡ length (bytes_from dns.ADDRESS (data_of self.now)) / 16 }
    {
        self.tail(dns::ADDRESS).len() / 16
    }

    /// Returns the bytes of the address at an index, or `None` if the index is not below the number of
    /// addresses. An IP version 4 address fills the first four.
    pub fn address(&self, index: usize) -> Option<[u8; 16]>
        ensures some { IsSome result ↔ (index < length (bytes_from dns.ADDRESS (data_of self.now)) / 16) }
        ensures bytes { IfSome result (λ bytes.
            bytes ≡ slice_range (bytes_from dns.ADDRESS (data_of self.now)) (16 * index) (16 * index + 16)) }
    {
        let addresses = self.tail(dns::ADDRESS);
        if addresses.len() / 16 <= index {
            return None;
        }
        let mut address = [0; 16];
        address.copy_from_slice(&addresses[16 * index..16 * index + 16]);
        Some(address)
    }
}

/// A REST service.
///
/// ```rust
/// let (node, _) = DevicePathNode::split_first(b"\x03\x21\x1a\0\xff\x02abcdefghijklmnopdata")?;
/// let service = messaging::RestService::from_node(node)?;
/// assert_eq!(rt; (service.service_type(), service.access_mode()), (0xff, 2));
/// assert_eq!(rt; service.vendor_guid_and_data().map(|it| it.1), Some(b"data".as_slice()));
/// ```
pub type RestService<'a> = TypedNode<
    'a,
    MESSAGING_TYPE,
    { rest_service::SUB_TYPE },
    { rest_service::LEAST },
>;

impl<'a> RestService<'a> {
    /// Returns the type of the service: 1 is Redfish, 2 OData, 0xff a vendor's.
    pub fn service_type(&self) -> u8
        ensures { result ≡ number_in rest_service.SERVICE_TYPE (data_of self.now) }
    {
        self.number(rest_service::SERVICE_TYPE)
    }

    /// Returns the access mode: 1 is in band, 2 out of band.
    pub fn access_mode(&self) -> u8
        ensures { result ≡ number_in rest_service.ACCESS_MODE (data_of self.now) }
    {
        self.number(rest_service::ACCESS_MODE)
    }

    /// Returns the GUID of a vendor's service and the vendor's data after it, or `None` if the type of the
    /// service is not 0xff or the data ends within the GUID.
    pub fn vendor_guid_and_data(&self) -> Option<(Guid, &'a [u8])>
        ensures some { IsSome result
            ↔ ((number_in rest_service.SERVICE_TYPE (data_of self.now) ≡ 255)
            × (end_of rest_service.VENDOR_GUID ≤ length (data_of self.now))) }
        ensures guid { IfSome result (λ vendor.
            vendor.0 ≡ bytes_in rest_service.VENDOR_GUID (data_of self.now)) }
        ensures after_guid { IfSome result (λ vendor.
            vendor.1.now ≡ bytes_from rest_service.VENDOR_DEFINED_DATA (data_of self.now)) }
    {
        if self.service_type() != 0xff {
            return None;
        }
        let (guid, after_guid) = self
            .tail(rest_service::VENDOR_GUID)
            .split_first_chunk::<16>()?;
        Some((Guid::from_bytes(*guid), after_guid))
    }
}

/// The structs from which these nodes are built.
pub mod build {
    use crate::field_texts::guid::Guid;
    use crate::fields::{Fields, put, put_bytes};
    use crate::node_table::layouts::MESSAGING_TYPE;
    use crate::node_table::layouts::messaging::{dns, ipv4, ipv6, mac_address, rest_service, vlan};
    use crate::typed_node::TypedNode;

    /// A network interface.
    ///
    /// ```rust
    /// let mut address = [0; 32];
    /// address[..6].copy_from_slice(&[0x52, 0x54, 0, 0x12, 0x34, 0x56]);
    /// let mut path = DevicePathBuf::new(rt.alloc())?;
    /// path.push_node(&messaging::MacAddress { mac_address: address, interface_type: 1 })?;
    /// let text = format!(in rt.alloc(); "{}", path.as_device_path())?;
    /// assert_eq!(rt; text.as_str(), "MAC(525400123456,0x1)");
    /// ```
    #[derive(Clone, Copy)]
    pub struct MacAddress {
        /// The address, padded with zeros.
        pub mac_address: [u8; 32],
        /// The type of the interface (RFC 3232).
        pub interface_type: u8,
    }

    /// Builds the node from its fields.
    impl Fields for MacAddress {
        type Layout = super::MacAddress<'static>;

        type Tail = ();

        ghost fields = { λ n. bytes mac_address.MAC_ADDRESS n.mac_address ∷
            number mac_address.INTERFACE_TYPE n.interface_type ∷ [] };

        fn tail(self) {}

        fn put(&self, content: &mut [u8]) {
            put_bytes(content, mac_address::MAC_ADDRESS, &self.mac_address);
            put(content, mac_address::INTERFACE_TYPE, self.interface_type);
        }
    }

    /// An endpoint of a connection over IP version 4.
    ///
    /// ```rust
    /// let mut path = DevicePathBuf::new(rt.alloc())?;
    /// path.push_node(&messaging::Ipv4 {
    ///     local_ip_address: [10, 0, 0, 7], remote_ip_address: [10, 0, 0, 1], local_port: 0, remote_port: 80,
    ///     protocol: 6, ip_address_origin: 1, gateway_ip_address: [10, 0, 0, 2],
    ///     subnet_mask: [255, 0, 0, 0] })?;
    /// let text = format!(in rt.alloc(); "{}", path.as_device_path())?;
    /// assert_eq!(rt; text.as_str(), "IPv4(10.0.0.1,TCP,Static,10.0.0.7,10.0.0.2,255.0.0.0)");
    /// ```
    #[derive(Clone, Copy)]
    pub struct Ipv4 {
        /// The local address.
        pub local_ip_address: [u8; 4],
        /// The remote address.
        pub remote_ip_address: [u8; 4],
        /// The local port.
        pub local_port: u16,
        /// The remote port.
        pub remote_port: u16,
        /// The number of the protocol over IP, such as UDP or TCP.
        pub protocol: u16,
        /// The origin of the local address; 0 is DHCP.
        pub ip_address_origin: u8,
        /// The address of the gateway.
        pub gateway_ip_address: [u8; 4],
        /// The mask of the subnet.
        pub subnet_mask: [u8; 4],
    }

    /// Builds the node from its fields.
    impl Fields for Ipv4 {
        type Layout = TypedNode<'static, MESSAGING_TYPE, { ipv4::SUB_TYPE }, { ipv4::WHOLE }>;

        type Tail = ();

        ghost fields = { λ n. bytes ipv4.LOCAL_IP_ADDRESS n.local_ip_address ∷
            bytes ipv4.REMOTE_IP_ADDRESS n.remote_ip_address ∷ number ipv4.LOCAL_PORT n.local_port ∷
            number ipv4.REMOTE_PORT n.remote_port ∷ number ipv4.PROTOCOL n.protocol ∷
            number ipv4.IP_ADDRESS_ORIGIN n.ip_address_origin ∷
            bytes ipv4.GATEWAY_IP_ADDRESS n.gateway_ip_address ∷ bytes ipv4.SUBNET_MASK n.subnet_mask ∷
            [] };

        fn tail(self) {}

        fn put(&self, content: &mut [u8]) {
            put_bytes(content, ipv4::LOCAL_IP_ADDRESS, &self.local_ip_address);
            put_bytes(content, ipv4::REMOTE_IP_ADDRESS, &self.remote_ip_address);
            put(content, ipv4::LOCAL_PORT, self.local_port);
            put(content, ipv4::REMOTE_PORT, self.remote_port);
            put(content, ipv4::PROTOCOL, self.protocol);
            put(content, ipv4::IP_ADDRESS_ORIGIN, self.ip_address_origin);
            put_bytes(content, ipv4::GATEWAY_IP_ADDRESS, &self.gateway_ip_address);
            put_bytes(content, ipv4::SUBNET_MASK, &self.subnet_mask);
        }
    }

    /// An endpoint of a connection over IP version 6.
    ///
    /// ```rust
    /// let mut path = DevicePathBuf::new(rt.alloc())?;
    /// path.push_node(&messaging::Ipv6 {
    ///     local_ip_address: [b'a'; 16], remote_ip_address: [b'b'; 16], local_port: 0, remote_port: 80,
    ///     protocol: 6, ip_address_origin: 2, prefix_length: 64, gateway_ip_address: [0; 16] })?;
    /// let text = format!(in rt.alloc(); "{}", path.as_device_path())?;
    /// assert!(rt; text.starts_with("IPv6(6262:6262:6262:6262:6262:6262:6262:6262,TCP,"));
    /// ```
    #[derive(Clone, Copy)]
    pub struct Ipv6 {
        /// The local address.
        pub local_ip_address: [u8; 16],
        /// The remote address.
        pub remote_ip_address: [u8; 16],
        /// The local port.
        pub local_port: u16,
        /// The remote port.
        pub remote_port: u16,
        /// The number of the protocol over IP, such as UDP or TCP.
        pub protocol: u16,
        /// The origin of the local address: 0 is manual, 1 stateless and 2 stateful autoconfiguration.
        pub ip_address_origin: u8,
        /// The number of bits of the prefix.
        pub prefix_length: u8,
        /// The address of the gateway.
        pub gateway_ip_address: [u8; 16],
    }

    /// Builds the node from its fields.
    impl Fields for Ipv6 {
        type Layout = super::Ipv6<'static>;

        type Tail = ();

        ghost fields = { λ n. bytes ipv6.LOCAL_IP_ADDRESS n.local_ip_address ∷
            bytes ipv6.REMOTE_IP_ADDRESS n.remote_ip_address ∷ number ipv6.LOCAL_PORT n.local_port ∷
            number ipv6.REMOTE_PORT n.remote_port ∷ number ipv6.PROTOCOL n.protocol ∷
            number ipv6.IP_ADDRESS_ORIGIN n.ip_address_origin ∷
            number ipv6.PREFIX_LENGTH n.prefix_length ∷
            bytes ipv6.GATEWAY_IP_ADDRESS n.gateway_ip_address ∷ [] };

        fn tail(self) {}

        fn put(&self, content: &mut [u8]) {
            put_bytes(content, ipv6::LOCAL_IP_ADDRESS, &self.local_ip_address);
            put_bytes(content, ipv6::REMOTE_IP_ADDRESS, &self.remote_ip_address);
            put(content, ipv6::LOCAL_PORT, self.local_port);
            put(content, ipv6::REMOTE_PORT, self.remote_port);
            put(content, ipv6::PROTOCOL, self.protocol);
            put(content, ipv6::IP_ADDRESS_ORIGIN, self.ip_address_origin);
            put(content, ipv6::PREFIX_LENGTH, self.prefix_length);
            put_bytes(content, ipv6::GATEWAY_IP_ADDRESS, &self.gateway_ip_address);
        }
    }

    /// A virtual network.
    ///
    /// ```rust
    /// let mut path = DevicePathBuf::new(rt.alloc())?;
    /// path.push_node(&messaging::Vlan { vlan_id: 7 })?;
    /// let text = format!(in rt.alloc(); "{}", path.as_device_path())?;
    /// assert_eq!(rt; text.as_str(), "Vlan(7)");
    /// ```
    #[derive(Clone, Copy)]
    pub struct Vlan {
        /// The number of the network, from 0 to 4094.
        pub vlan_id: u16,
    }

    /// Builds the node from its fields.
    impl Fields for Vlan {
        type Layout = super::Vlan<'static>;

        type Tail = ();

        ghost fields = { λ n. number vlan.VLAN_ID n.vlan_id ∷ [] };

        fn tail(self) {}

        fn put(&self, content: &mut [u8]) {
            put(content, vlan::VLAN_ID, self.vlan_id);
        }
    }

    /// A resource that a URI identifies.
    ///
    /// ```rust
    /// let mut path = DevicePathBuf::new(rt.alloc())?;
    /// path.push_node(&messaging::Uri { value: b"http://a/b.efi" })?;
    /// let text = format!(in rt.alloc(); "{}", path.as_device_path())?;
    /// assert_eq!(rt; text.as_str(), "Uri(http://a/b.efi)");
    /// ```
    #[derive(Clone, Copy)]
    pub struct Uri<'a> {
        /// The bytes of the URI.
        pub value: &'a [u8],
    }

    /// Builds the node from its fields.
    impl<'a> Fields for Uri<'a> {
        type Layout = super::Uri<'static>;

        type Tail = &'a [u8];

        ghost fields = { λ n. [] };

        ghost after = { λ n. n.value.now };

        fn tail(self) -> &'a [u8] {
            self.value
        }

        fn put(&self, content: &mut [u8]) {}
    }

    /// The addresses of name servers.
    ///
    /// ```rust
    /// let mut path = DevicePathBuf::new(rt.alloc())?;
    /// path.push_node(&messaging::Dns {
    ///     address_type: 0, addresses: &[9, 9, 9, 9, 0, 0, 0, 0, 0, 0, 0, 0, 0, 0, 0, 0],
    /// })?;
    /// let text = format!(in rt.alloc(); "{}", path.as_device_path())?;
    /// assert_eq!(rt; text.as_str(), "Dns(9.9.9.9)");
    /// ```
    #[derive(Clone, Copy)]
    pub struct Dns<'a> {
        /// The type of the addresses: 0 is IP version 4, 1 is version 6.
        pub address_type: u8,
        /// The bytes of the addresses, 16 for each address. An IP version 4 address fills the first four.
        pub addresses: &'a [u8],
    }

    /// Builds the node from its fields.
    impl<'a> Fields for Dns<'a> {
        type Layout = super::Dns<'static>;

        type Tail = &'a [u8];

        ghost fields = { λ n. number dns.ADDRESS_TYPE n.address_type ∷ [] };

        ghost after = { λ n. n.addresses.now };

        fn tail(self) -> &'a [u8] {
            self.addresses
        }

        fn put(&self, content: &mut [u8]) {
            put(content, dns::ADDRESS_TYPE, self.address_type);
        }
    }

    /// A REST service.
    ///
    /// ```rust
    /// let mut path = DevicePathBuf::new(rt.alloc())?;
    /// path.push_node(&messaging::RestService {
    ///     service_type: 0xff, access_mode: 2,
    ///     vendor_guid: Some(Guid::from_bytes(*b"abcdefghijklmnop")), vendor_defined_data: b"data" })?;
    /// let text = format!(in rt.alloc(); "{}", path.as_device_path())?;
    /// assert_eq!(rt; text.as_str(), "Path(3,33,FF026162636465666768696A6B6C6D6E6F7064617461)");
    /// ```
    #[derive(Clone, Copy)]
    pub struct RestService<'a> {
        /// The type of the service: 1 is Redfish, 2 OData, 0xff a vendor's.
        pub service_type: u8,
        /// The access mode: 1 is in band, 2 out of band.
        pub access_mode: u8,
        /// The GUID of a vendor's service, whose type is 0xff.
        pub vendor_guid: Option<Guid>,
        /// The bytes after the GUID, which the vendor defines.
        pub vendor_defined_data: &'a [u8],
    }

    /// Builds the node from its fields.
    impl<'a> Fields for RestService<'a> {
        type Layout = super::RestService<'static>;

        type Tail = (Option<Guid>, &'a [u8]);

        ghost fields = { λ n. number rest_service.SERVICE_TYPE n.service_type ∷
            number rest_service.ACCESS_MODE n.access_mode ∷ [] };

        ghost after = { λ n. unwrap_or n.vendor_guid [] ++ n.vendor_defined_data.now };

        fn tail(self) -> (Option<Guid>, &'a [u8]) {
            (self.vendor_guid, self.vendor_defined_data)
        }

        fn put(&self, content: &mut [u8]) {
            put(content, rest_service::SERVICE_TYPE, self.service_type);
            put(content, rest_service::ACCESS_MODE, self.access_mode);
        }
    }
}
