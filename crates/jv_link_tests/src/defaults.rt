//! Which method invokevirtual and invokeinterface run where interfaces declare it (JVMS 5.4.3.3, 6.5).

use crate::guest::{Table, wrong_row};
use std::hash::RandomState;

static CLASSES: &str = "\
public A java/lang/Object | public m ()V
-- call is a default in I, K, J and L, abstract in R and B, and private in V; J, L, R, S and T extend I
public+interface+abstract I java/lang/Object | public call ()V
public+interface+abstract K java/lang/Object | public call ()V
public+interface+abstract J java/lang/Object I | public call ()V
public+interface+abstract L java/lang/Object I | public call ()V
public+interface+abstract R java/lang/Object I | public+abstract call ()V
public+interface+abstract S java/lang/Object I
public+interface+abstract T java/lang/Object I
public+interface+abstract B java/lang/Object | public+abstract call ()V
public+interface+abstract V java/lang/Object | public m ()V | private call ()V
public+interface+abstract E java/lang/Object
-- classes with that method: public, package-private, private, abstract, static
public Public java/lang/Object | public call ()V
public Near java/lang/Object | package call ()V
public Private java/lang/Object | private call ()V
public+abstract Abstract java/lang/Object | public+abstract call ()V
public+abstract NearAbstract java/lang/Object | package+abstract call ()V
public Static java/lang/Object | public+static call ()V
-- classes by the interfaces that they implement
public OfI java/lang/Object I
public OfIJ java/lang/Object I J
public OfIK java/lang/Object I K
public OfST java/lang/Object S T
public OfSJ java/lang/Object S J
public OfJL java/lang/Object J L
public OfSR java/lang/Object S R
public OfJR java/lang/Object J R
public OfRK java/lang/Object R K
public OfR java/lang/Object R
public OfB java/lang/Object B
public OfBV java/lang/Object B V
public OfE java/lang/Object E
public OfEWithEquals java/lang/Object E | public equals (Ljava/lang/Object;)Z
-- below those
public PublicOfK Public K
public PublicOfI Public I
public NearOfI Near I
public PrivateOfI Private I
public AbstractOfI Abstract I
public NearAbstractOfI NearAbstract I
public StaticOfI Static I
public BelowPublic OfI | public call ()V
public BelowNear OfI | package call ()V
public BelowPrivate OfI | private call ()V
public BelowWithK OfI K
public BelowWithJ OfI J
public BelowNothing OfJL";

static ROWS: &str = "\
-- the one default that is most specific
A m invokevirtual Methodref OfI call ()V OfI = I
A m invokevirtual Methodref OfIJ call ()V OfIJ = J
A m invokevirtual Methodref OfIK call ()V OfIK = IncompatibleClassChangeError
-- diamonds: of none, one and two below I, and of one that was made abstract again
A m invokevirtual Methodref OfST call ()V OfST = I
A m invokevirtual Methodref OfSJ call ()V OfSJ = J
A m invokevirtual Methodref OfJL call ()V OfJL = IncompatibleClassChangeError
A m invokevirtual Methodref OfSR call ()V OfSR = AbstractMethodError
A m invokevirtual Methodref OfJR call ()V OfJR = J
A m invokevirtual Methodref OfRK call ()V OfRK = K
A m invokevirtual Methodref OfR call ()V OfR = AbstractMethodError
A m invokevirtual Methodref OfB call ()V OfB = AbstractMethodError
A m invokevirtual Methodref OfBV call ()V OfBV = AbstractMethodError
-- a class's method comes before a default
A m invokevirtual Methodref Public call ()V PublicOfK = Public
A m invokevirtual Methodref PublicOfI call ()V PublicOfI = Public
A m invokevirtual Methodref Abstract call ()V AbstractOfI = AbstractMethodError
-- a class below one that has a default overrides it, unless its method is private
A m invokevirtual Methodref OfI call ()V BelowPublic = BelowPublic
A m invokevirtual Methodref OfI call ()V BelowNear = BelowNear
A m invokevirtual Methodref OfI call ()V BelowPrivate = I
-- the superinterfaces of the object's class count
A m invokevirtual Methodref OfI call ()V BelowWithK = IncompatibleClassChangeError
A m invokevirtual Methodref OfI call ()V BelowWithJ = J
A m invokevirtual Methodref OfJL call ()V BelowNothing = IncompatibleClassChangeError
-- through an interface
A m invokeinterface InterfaceMethodref I call ()V OfI = I
A m invokeinterface InterfaceMethodref I call ()V OfST = I
A m invokeinterface InterfaceMethodref S call ()V OfST = I
A m invokeinterface InterfaceMethodref I call ()V OfSJ = J
A m invokeinterface InterfaceMethodref S call ()V OfSJ = J
A m invokeinterface InterfaceMethodref J call ()V OfIJ = J
A m invokeinterface InterfaceMethodref I call ()V OfIK = IncompatibleClassChangeError
A m invokeinterface InterfaceMethodref I call ()V OfJL = IncompatibleClassChangeError
A m invokeinterface InterfaceMethodref I call ()V OfSR = AbstractMethodError
A m invokeinterface InterfaceMethodref R call ()V OfR = AbstractMethodError
A m invokeinterface InterfaceMethodref R call ()V OfRK = K
A m invokeinterface InterfaceMethodref I call ()V PublicOfI = Public
A m invokeinterface InterfaceMethodref I call ()V BelowPublic = BelowPublic
A m invokeinterface InterfaceMethodref I call ()V BelowWithJ = J
-- no such method but abstract and private ones of interfaces
A m invokeinterface InterfaceMethodref B call ()V OfB = AbstractMethodError
A m invokeinterface InterfaceMethodref B call ()V OfBV = AbstractMethodError
-- the object's class implements the interface, though it has the method
A m invokeinterface InterfaceMethodref I call ()V Public = IncompatibleClassChangeError
A m invokeinterface InterfaceMethodref J call ()V OfI = IncompatibleClassChangeError
A m invokeinterface InterfaceMethodref E equals (Ljava/lang/Object;)Z A = IncompatibleClassChangeError
-- the class's method is public, which is asked before whether it is abstract
A m invokeinterface InterfaceMethodref I call ()V NearOfI = IllegalAccessError
A m invokeinterface InterfaceMethodref I call ()V PrivateOfI = IllegalAccessError
A m invokeinterface InterfaceMethodref I call ()V BelowNear = IllegalAccessError
A m invokeinterface InterfaceMethodref I call ()V BelowPrivate = IllegalAccessError
A m invokeinterface InterfaceMethodref I call ()V NearAbstractOfI = IllegalAccessError
A m invokeinterface InterfaceMethodref I call ()V AbstractOfI = AbstractMethodError
A m invokeinterface InterfaceMethodref I call ()V StaticOfI = I
-- methods of java/lang/Object
A m invokeinterface InterfaceMethodref E equals (Ljava/lang/Object;)Z OfE = java/lang/Object
A m invokeinterface InterfaceMethodref E equals (Ljava/lang/Object;)Z OfEWithEquals = OfEWithEquals
A m invokeinterface InterfaceMethodref java/io/Serializable equals (Ljava/lang/Object;)Z java/lang/String = java/lang/String
-- arrays implement two interfaces
A m invokeinterface InterfaceMethodref java/lang/Cloneable equals (Ljava/lang/Object;)Z [ = java/lang/Object
A m invokeinterface InterfaceMethodref java/io/Serializable equals (Ljava/lang/Object;)Z [ = java/lang/Object
A m invokeinterface InterfaceMethodref E equals (Ljava/lang/Object;)Z [ = IncompatibleClassChangeError
A m invokeinterface InterfaceMethodref I call ()V [ = IncompatibleClassChangeError";

#[test]
fn defaults_run(rt: HostRuntime) {
    match RandomState::new(&rt) {
        Ok(state) => {
            let wrong = wrong_row(rt.alloc(), state, CLASSES, Table::Selections, ROWS);
            assert!(rt; wrong == "", "{wrong}");
        }
        Err(_) => assert!(rt; false),
    }
}
