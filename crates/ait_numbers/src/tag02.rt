// 0x02 as numbers, by its protocol.
ghost use Rattle.std.specs.Prelude.{◌≡◌};
ghost use Rattle.ait_numbers.specs.Tag02.{local_out, remote_out, bases_out, selector_out, base_out};

use crate::shapes::{BLANK_DESCRIPTOR, BLANK_ITEM, counted, placed};
use crate::{DescriptorOut, ItemOut};
use ait_descriptors::{Base, Bases, Local, Remote, Selector};

pub fn local_out(x: Local) -> DescriptorOut
    ensures { result ≡ local_out x }
{
    DescriptorOut {
        protocol: 1,
        kind: 3,
        tag: 0x02,
        label: x.label,
        component: x.component,
        ..BLANK_DESCRIPTOR
    }
}

pub fn remote_out(x: Remote) -> DescriptorOut
    ensures { result ≡ remote_out x }
{
    DescriptorOut {
        protocol: 1,
        network: x.network,
        transport: x.transport,
        service: x.service,
        kind: 4,
        tag: 0x02,
        label: x.label,
        component: x.component,
        ..BLANK_DESCRIPTOR
    }
}

pub fn bases_out(x: Bases) -> DescriptorOut
    ensures { result ≡ bases_out x }
{
    counted(5, 0x02, 3, x.label, x.bases)
}

pub fn selector_out(x: Selector) -> DescriptorOut
    ensures { result ≡ selector_out x }
{
    placed(6, 0x02, x.protocol, x.label, x.selector)
}

pub fn base_out(b: Base) -> ItemOut
    ensures { result ≡ base_out b }
{
    let text = b.text;
    ItemOut {
        at: text.start,
        length: text.size,
        extensions: b.extensions,
        kind: 5,
        ..BLANK_ITEM
    }
}
