//! What a verdict is about.

use crate::differences::{DscDifference, SidecarDifference};
use para::Text;
use records::RecordFault;
use rules::Verdict;
use sums::Print;

/// What a verdict is about. If several parts of its rule apply, it is the first.
#[derive(Drop)]
pub enum Named {
    /// 1. The distribution, which no suite claims.
    Distribution {
        name: Text,
    },
    /// 2. The first architecture that the suite does not keep.
    Architecture {
        name: Text,
    },
    /// 3. The source package, and the person, to whom no uploader line allows it.
    Uploader {
        source: Text,
        person: Text,
    },
    /// 4. The first file of another component than that of the upload, and both.
    OtherComponent {
        file: Text,
        component: Text,
        upload: Text,
    },
    /// 4. The component, which the suite does not have.
    Component {
        name: Text,
    },
    /// 5. The first .changes that is listed.
    ListedChanges {
        file: Text,
    },
    /// 5. A surplus .dsc: the second if `source` is among the architectures, else the first.
    SurplusDsc {
        file: Text,
        is_second: bool,
    },
    /// 5. No .dsc is listed, and `source` is among the architectures.
    NoDsc,
    /// 5. The first package file without its sidecar.
    LonePackage {
        file: Text,
    },
    /// 5. The first sidecar without its package file.
    LoneSidecar {
        file: Text,
    },
    /// 5. The first source file, if `source` is not among the architectures.
    SourceFile {
        file: Text,
    },
    /// 6. The first .dsc that is refused as a record, and its fault.
    UnreadDsc {
        file: Text,
        fault: RecordFault,
    },
    /// 6. The first .dsc that is not the one of its .changes, and how it differs.
    Dsc {
        file: Text,
        difference: DscDifference,
    },
    /// 7. The first sidecar that is refused as a record, and its fault.
    UnreadSidecar {
        file: Text,
        fault: RecordFault,
    },
    /// 7. The first sidecar that its .changes may not have, and how it differs.
    Sidecar {
        file: Text,
        difference: SidecarDifference,
    },
    /// 7. Two sidecars of the same package and architecture, each by the name that it has by its own fields.
    Twins {
        package: Text,
        architecture: Text,
        first: Text,
        second: Text,
    },
    /// 8, 9. A file, its path in the pool, and the print of what is there.
    File {
        name: Text,
        print: Print,
        path: Text,
        there: Option<Print>,
    },
}

/// A verdict, and what it is about; acceptance is about nothing.
#[derive(Drop)]
pub struct Reason {
    pub verdict: Verdict,
    pub named: Option<Named>,
}
