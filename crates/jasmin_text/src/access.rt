//! Access words.

/// The access words of a class, a field or a method (JVMS SE 8 tables 4.1-A, 4.5-A, 4.6-A): a set, which is
/// written in the order of these fields. Any of them may come in all three places, but `abstract` and
/// `static` not on one method.
#[derive(Clone, Copy)]
pub struct Access {
    /// `public`
    pub public: bool,
    /// `private`
    pub private: bool,
    /// `protected`
    pub protected: bool,
    /// `static`
    pub is_static: bool,
    /// `final`
    pub is_final: bool,
    /// `synchronized`
    pub synchronized: bool,
    /// `volatile`
    pub volatile: bool,
    /// `transient`
    pub transient: bool,
    /// `abstract`
    pub is_abstract: bool,
}

impl Access {
    /// No word.
    pub const NONE: Access = Access {
        public: false,
        private: false,
        protected: false,
        is_static: false,
        is_final: false,
        synchronized: false,
        volatile: false,
        transient: false,
        is_abstract: false,
    };
}
