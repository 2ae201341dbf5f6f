//! Vendors whose nodes have short names, by their GUIDs.
#![tactic(auto, unfolding(crate::specs::FieldTexts::vendor_name))]

ghost use Rattle.std.specs.Prelude.{◌≡◌};
ghost use Rattle.uefi_device_nodes.specs.FieldTexts.{vendor_name};

/// Returns the short name of a vendor-defined messaging node, by the two halves of its GUID, or an
/// empty text if it has none.
pub fn vendor_name(first: u64, second: u64) -> &'static str
    ensures { result.now ≡ vendor_name first second }
{
    match (first, second) {
        (0x11d2f9bee0c14753, 0x4dc13f2790000c9a) => "VenPcAnsi()",
        (0x11d3b419dfa66065, 0x4dc13f2790002d9a) => "VenVt100()",
        (0x4c7657e07baec70b, 0x438308289e2f878e) => "VenVt100Plus()",
        (0x4acf8becad15a0d6, 0x882d7ee71dd073a0) => "VenUtf8()",
        (0x41ec3858eba4e8d2, 0xd06096ba472681a2) => "DebugPort()",
        _ => "",
    }
}
