//! System instructions: saved states, virtual machines, enclaves and the like.

ghost use Rattle.std.specs.Prelude.{◌≡◌, length};
ghost use Rattle.x86_settings.specs.Bits.{is_set, with_set};
ghost use Rattle.x86_settings.specs.Settings.{invpcid, monitor, mpx, rdtscp, sgx, syscall, tsx, vmx, xsave, xsavec};
ghost use Rattle.x86_settings.specs.Settings.{xsaves, xsaveopt, fsgsbase, rdpid, fred, urdmsr, immediate_rdmsr, hreset};

use crate::bits;
use crate::decoder::InstDecoder;

impl InstDecoder {
    /// INVPCID.
    pub fn invpcid(&self) -> bool
        ensures { result ≡ is_set self.now invpcid }
    {
        self.bit(bits::INVPCID)
    }

    /// These settings with INVPCID.
    pub fn with_invpcid(self) -> InstDecoder
        ensures set { result ≡ with_set self invpcid }
        ensures long { length result ≡ 128 }
    {
        self.with_bit(bits::INVPCID)
    }

    /// MONITOR. It decides nothing: MONITOR and MWAIT are permitted by `sse3`.
    pub fn monitor(&self) -> bool
        ensures { result ≡ is_set self.now monitor }
    {
        self.bit(bits::MONITOR)
    }

    /// These settings with MONITOR.
    pub fn with_monitor(self) -> InstDecoder
        ensures set { result ≡ with_set self monitor }
        ensures long { length result ≡ 128 }
    {
        self.with_bit(bits::MONITOR)
    }

    /// MPX: bounds, as BNDMK and BNDCL.
    pub fn mpx(&self) -> bool
        ensures { result ≡ is_set self.now mpx }
    {
        self.bit(bits::MPX)
    }

    /// These settings with MPX.
    pub fn with_mpx(self) -> InstDecoder
        ensures set { result ≡ with_set self mpx }
        ensures long { length result ≡ 128 }
    {
        self.with_bit(bits::MPX)
    }

    /// RDTSCP.
    pub fn rdtscp(&self) -> bool
        ensures { result ≡ is_set self.now rdtscp }
    {
        self.bit(bits::RDTSCP)
    }

    /// These settings with RDTSCP.
    pub fn with_rdtscp(self) -> InstDecoder
        ensures set { result ≡ with_set self rdtscp }
        ensures long { length result ≡ 128 }
    {
        self.with_bit(bits::RDTSCP)
    }

    /// SGX: enclaves, ENCLS, ENCLU and ENCLV.
    pub fn sgx(&self) -> bool
        ensures { result ≡ is_set self.now sgx }
    {
        self.bit(bits::SGX)
    }

    /// These settings with SGX.
    pub fn with_sgx(self) -> InstDecoder
        ensures set { result ≡ with_set self sgx }
        ensures long { length result ≡ 128 }
    {
        self.with_bit(bits::SGX)
    }

    /// SYSCALL: SYSCALL and SYSRET.
    pub fn syscall(&self) -> bool
        ensures { result ≡ is_set self.now syscall }
    {
        self.bit(bits::SYSCALL)
    }

    /// These settings with SYSCALL.
    pub fn with_syscall(self) -> InstDecoder
        ensures set { result ≡ with_set self syscall }
        ensures long { length result ≡ 128 }
    {
        self.with_bit(bits::SYSCALL)
    }

    /// TSX: XABORT, XBEGIN, XEND and XTEST.
    pub fn tsx(&self) -> bool
        ensures { result ≡ is_set self.now tsx }
    {
        self.bit(bits::TSX)
    }

    /// These settings with TSX.
    pub fn with_tsx(self) -> InstDecoder
        ensures set { result ≡ with_set self tsx }
        ensures long { length result ≡ 128 }
    {
        self.with_bit(bits::TSX)
    }

    /// VMX: Intel's virtual machines, as VMLAUNCH, INVEPT and INVVPID.
    pub fn vmx(&self) -> bool
        ensures { result ≡ is_set self.now vmx }
    {
        self.bit(bits::VMX)
    }

    /// These settings with VMX.
    pub fn with_vmx(self) -> InstDecoder
        ensures set { result ≡ with_set self vmx }
        ensures long { length result ≡ 128 }
    {
        self.with_bit(bits::VMX)
    }

    /// XSAVE: XSAVE, XRSTOR, XGETBV and XSETBV.
    pub fn xsave(&self) -> bool
        ensures { result ≡ is_set self.now xsave }
    {
        self.bit(bits::XSAVE)
    }

    /// These settings with XSAVE.
    pub fn with_xsave(self) -> InstDecoder
        ensures set { result ≡ with_set self xsave }
        ensures long { length result ≡ 128 }
    {
        self.with_bit(bits::XSAVE)
    }

    /// XSAVEC.
    pub fn xsavec(&self) -> bool
        ensures { result ≡ is_set self.now xsavec }
    {
        self.bit(bits::XSAVEC)
    }

    /// These settings with XSAVEC.
    pub fn with_xsavec(self) -> InstDecoder
        ensures set { result ≡ with_set self xsavec }
        ensures long { length result ≡ 128 }
    {
        self.with_bit(bits::XSAVEC)
    }

    /// XSAVES: XSAVES and XRSTORS.
    pub fn xsaves(&self) -> bool
        ensures { result ≡ is_set self.now xsaves }
    {
        self.bit(bits::XSAVES)
    }

    /// These settings with XSAVES.
    pub fn with_xsaves(self) -> InstDecoder
        ensures set { result ≡ with_set self xsaves }
        ensures long { length result ≡ 128 }
    {
        self.with_bit(bits::XSAVES)
    }

    /// XSAVEOPT.
    pub fn xsaveopt(&self) -> bool
        ensures { result ≡ is_set self.now xsaveopt }
    {
        self.bit(bits::XSAVEOPT)
    }

    /// These settings with XSAVEOPT.
    pub fn with_xsaveopt(self) -> InstDecoder
        ensures set { result ≡ with_set self xsaveopt }
        ensures long { length result ≡ 128 }
    {
        self.with_bit(bits::XSAVEOPT)
    }

    /// FSGSBASE: RDFSBASE, RDGSBASE, WRFSBASE and WRGSBASE.
    pub fn fsgsbase(&self) -> bool
        ensures { result ≡ is_set self.now fsgsbase }
    {
        self.bit(bits::FSGSBASE)
    }

    /// These settings with FSGSBASE.
    pub fn with_fsgsbase(self) -> InstDecoder
        ensures set { result ≡ with_set self fsgsbase }
        ensures long { length result ≡ 128 }
    {
        self.with_bit(bits::FSGSBASE)
    }

    /// RDPID.
    pub fn rdpid(&self) -> bool
        ensures { result ≡ is_set self.now rdpid }
    {
        self.bit(bits::RDPID)
    }

    /// These settings with RDPID.
    pub fn with_rdpid(self) -> InstDecoder
        ensures set { result ≡ with_set self rdpid }
        ensures long { length result ≡ 128 }
    {
        self.with_bit(bits::RDPID)
    }

    /// FRED: ERETS, ERETU and LKGS. Shares its bit with `urdmsr`.
    pub fn fred(&self) -> bool
        ensures { result ≡ is_set self.now fred }
    {
        self.bit(bits::FRED)
    }

    /// These settings with FRED, and so with `urdmsr`.
    pub fn with_fred(self) -> InstDecoder
        ensures set { result ≡ with_set self fred }
        ensures long { length result ≡ 128 }
    {
        self.with_bit(bits::FRED)
    }

    /// USER_MSR: URDMSR and UWRMSR. Shares its bit with `fred`.
    pub fn urdmsr(&self) -> bool
        ensures { result ≡ is_set self.now urdmsr }
    {
        self.bit(bits::URDMSR)
    }

    /// These settings with USER_MSR, the setter of `urdmsr`, and so with `fred`.
    pub fn with_uwrmsr(self) -> InstDecoder
        ensures set { result ≡ with_set self urdmsr }
        ensures long { length result ≡ 128 }
    {
        self.with_bit(bits::URDMSR)
    }

    /// MSR_IMM: RDMSR and WRMSRNS of an immediate.
    pub fn immediate_rdmsr(&self) -> bool
        ensures { result ≡ is_set self.now immediate_rdmsr }
    {
        self.bit(bits::IMMEDIATE_RDMSR)
    }

    /// These settings with MSR_IMM.
    pub fn with_immediate_rdmsr(self) -> InstDecoder
        ensures set { result ≡ with_set self immediate_rdmsr }
        ensures long { length result ≡ 128 }
    {
        self.with_bit(bits::IMMEDIATE_RDMSR)
    }

    /// HRESET.
    pub fn hreset(&self) -> bool
        ensures { result ≡ is_set self.now hreset }
    {
        self.bit(bits::HRESET)
    }

    /// These settings with HRESET.
    pub fn with_hreset(self) -> InstDecoder
        ensures set { result ≡ with_set self hreset }
        ensures long { length result ≡ 128 }
    {
        self.with_bit(bits::HRESET)
    }
}
