ghost use Rattle.std.specs.Prelude.{◌≡◌, ℕ, List};
ghost use Rattle.certificates.specs.declared.derivation.Certificate.{Certificate as AnyCertificate};
ghost use Rattle.certificates.specs.declared.fault.CertFault.{CertFault as AnyFault};
ghost use Rattle.certificates.specs.Reading.{Reads, Refuses};
ghost use Rattle.certificates.specs.Text.{certificate_text};
ghost use Rattle.certificates.specs.Writable.{IsWritableCertificate};

/// Bytes are the text of one certificate, or are refused once: not both, and not neither. What is read can be written.
pub fn one_certificate()
    ensures same_certificate { (bytes : List ℕ) (first second : AnyCertificate)
        → Reads bytes first → Reads bytes second → first ≡ second }
    ensures same_fault { (bytes : List ℕ) (first second : AnyFault)
        → Refuses bytes first → Refuses bytes second → first ≡ second }
    ensures not_both { (bytes : List ℕ) (certificate : AnyCertificate) (fault : AnyFault)
        → Reads bytes certificate → Refuses bytes fault → ⊥ }
    ensures not_neither { (bytes : List ℕ)
        → ((certificate : AnyCertificate) → Reads bytes certificate → ⊥)
        → ((fault : AnyFault) → Refuses bytes fault → ⊥) → ⊥ }
    ensures writable { (bytes : List ℕ) (certificate : AnyCertificate)
        → Reads bytes certificate → IsWritableCertificate certificate }
{}

/// What is written is read as the same.
pub fn written_is_read()
    ensures { (certificate : AnyCertificate) → IsWritableCertificate certificate
        → Reads (certificate_text certificate) certificate }
{}
