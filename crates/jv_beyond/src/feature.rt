//! What the profile leaves out.

ghost use Rattle.std.specs.Prelude.{Some};
ghost use Rattle.jv_beyond.specs.Text.{feature_text, reason_text};

use std::fmt;

/// What the Java virtual machine has and the profile leaves out.
#[derive(Clone, Copy)]
pub enum Feature {
    /// Floating point numbers (JVMS 2.3.2).
    FloatingPoint,
    /// Dynamic calls (JVMS 4.4.10).
    DynamicCalls,
    /// Monitors (JVMS 2.11.10).
    Monitors,
    /// Native methods (JVMS 4.6).
    NativeMethods,
    /// Synchronized methods (JVMS 4.6).
    SynchronizedMethods,
    /// Method handles and method types (JVMS 4.4.8, 4.4.9).
    MethodHandles,
}

/// The line that says what is left out.
#[derive(Clone, Copy)]
pub(crate) struct ShownReason(pub(crate) Feature);

impl fmt::Display for Feature {
    ghost output = { λ feature. Some (feature_text feature) };

    fn fmt<W: fmt::Write>(&self, f: &mut fmt::Formatter<W>) -> fmt::Result {
        f.write_str(match self {
            Feature::FloatingPoint => "float and double",
            Feature::DynamicCalls =>
                "invokedynamic, which a lambda or a method reference compiles to",
            Feature::Monitors => "monitors, which a synchronized statement takes",
            Feature::NativeMethods => "native methods",
            Feature::SynchronizedMethods => "synchronized methods",
            Feature::MethodHandles => "method handles and method types",
        })
    }
}

impl fmt::Display for ShownReason {
    ghost output = { λ reason. Some (reason_text reason.0) };

    fn fmt<W: fmt::Write>(&self, f: &mut fmt::Formatter<W>) -> fmt::Result {
        let feature = self.0;
        write!(f, "  beyond the profile: {feature}\n")
    }
}
