// How each list of a manifest is laid out.
ghost use Rattle.std.specs.Prelude.{◌≡◌};
ghost use Rattle.format.specs.Manifest.{numbered};
ghost use Rattle.state_sections.specs.Layouts.{layout_of};

use state::Section;

// When question 9, whether a key is above the one before it, is asked about the entries of a list.
#[derive(Clone, Copy, PartialEq, Eq)]
pub enum Asked {
    Never,
    AfterKey,
    AfterEntry,
}

// How the list of a section is read: the least bytes of an entry, how many bytes of a key are passed over in the order, and
// when the order is asked. Data, compared at each entry: a closure for it would be one more at each of ten calls.
#[derive(Clone, Copy)]
pub struct Layout {
    pub least: u64,
    pub skip: usize,
    pub asked: Asked,
}

fn laid(least: u64, skip: usize, asked: Asked) -> Layout
    ensures { result ≡ record { least = least; skip = skip; asked = asked } }
{
    Layout { least, skip, asked }
}

#[tactic(auto, using(crate::proofs::Numbers::numbered_found), unfolding(format::specs::Manifest::numbered))]
pub fn layout_of(section: u8) -> Layout
    ensures { result ≡ layout_of (numbered section) }
{
    match section {
        ..=Section::ENUMS => laid(8, 4, Asked::AfterEntry),
        Section::BLOCKS => laid(34, 0, Asked::AfterEntry),
        Section::CONNECTORS => laid(19, 0, Asked::AfterEntry),
        Section::CONNECTIONS => laid(20, 0, Asked::AfterEntry),
        Section::SCHEDULE => laid(5, 0, Asked::Never),
        Section::CONNECTOR_ORDER => laid(10, 0, Asked::Never),
        Section::DRIVER_OF => laid(20, 0, Asked::AfterEntry),
        Section::STATE_SLOTS => laid(21, 0, Asked::AfterEntry),
        Section::EXTERNAL_INPUTS => laid(10, 0, Asked::Never),
        Section::BOUNDARY_OUTPUTS => laid(14, 0, Asked::Never),
        _ => laid(7, 4, Asked::AfterKey),
    }
}
